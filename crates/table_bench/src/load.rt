/// What is timed.
#[derive(Clone, Copy, PartialEq, Eq)]
pub(crate) enum Work {
    /// Building the table of a run.
    Build,
    /// The SHA-256 of a copy of its bytes.
    Hash,
    /// Opening a copy of its bytes.
    Open,
    /// Reading a pair, lent.
    Read,
}

/// How much is done.
#[derive(Clone, Copy)]
pub(crate) struct Load {
    pub(crate) work: Work,
    /// How many pairs the run has, at least 1.
    pub(crate) pairs: u32,
    /// The bytes of each value.
    pub(crate) value_len: u16,
    /// How often it is done.
    pub(crate) times: u32,
}
