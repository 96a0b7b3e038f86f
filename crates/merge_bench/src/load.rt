/// What is done so often.
#[derive(Clone, Copy)]
pub(crate) enum Load {
    /// Merges, whose pieces go at once.
    Merge(Merges),
    /// Merges, whose pieces are kept to the end.
    Hold(Merges),
    Plan(Plans),
}

/// Major compactions of one partition.
#[derive(Clone, Copy)]
pub(crate) struct Merges {
    /// How many runs, at most 8.
    pub(crate) runs: u8,
    /// How many keys all runs together have.
    pub(crate) keys: u32,
    /// How many new pairs there are.
    pub(crate) new: u32,
    /// How often they are merged.
    pub(crate) times: u32,
}

/// Plans for members of all sizes.
#[derive(Clone, Copy)]
pub(crate) struct Plans {
    pub(crate) members: u32,
    /// How often they are planned.
    pub(crate) times: u32,
}
