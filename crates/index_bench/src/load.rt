/// What is timed: building the index, or seeking in it and reading rows.
#[derive(Clone, Copy, PartialEq, Eq)]
pub(crate) enum Work {
    Build,
    Seek,
}

/// How much is done.
#[derive(Clone, Copy)]
pub(crate) struct Load {
    pub(crate) work: Work,
    /// How many runs, at most 8.
    pub(crate) runs: u8,
    /// About how many pairs a run has.
    pub(crate) pairs: u32,
    /// How often it is done.
    pub(crate) times: u32,
    /// How many rows each seek reads.
    pub(crate) rows: u32,
}
