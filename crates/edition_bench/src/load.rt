/// What is done so often.
#[derive(Clone, Copy)]
pub(crate) enum Work {
    Decode,
    Encode,
    Copy,
}

/// A piece of work.
#[derive(Clone, Copy)]
pub(crate) struct Load {
    pub(crate) work: Work,
    /// How many partitions the edition has.
    pub(crate) partitions: u32,
    /// How many runs each of them has.
    pub(crate) runs: u8,
    /// How often the work is done.
    pub(crate) times: u32,
}
