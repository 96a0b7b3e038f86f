/// Where a pair of a merge comes from.
#[derive(Clone, Copy)]
pub(crate) enum Origin {
    /// A place of an old run.
    Old { run: u8, place: u32 },
    /// A place of the new pairs.
    New { place: usize },
}
