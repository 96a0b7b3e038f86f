use remix_view::Walk;

/// Where a merge stands: at a place of the old runs' index, and at one of the new pairs.
#[derive(Clone, Copy)]
pub(crate) struct MergePlace {
    /// The walk over the index.
    pub(crate) walk: Walk,
    /// The first new pair that is left.
    pub(crate) at: usize,
}
