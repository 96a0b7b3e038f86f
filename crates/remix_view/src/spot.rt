/// Where a version of a key stands: a place of a run, and what its selector tells of it.
#[derive(Clone, Copy, Debug, PartialEq, Eq)]
pub struct Spot {
    /// The run, 0 the newest.
    pub run: u8,
    /// The place of the pair in that run.
    pub place: u32,
    /// Whether a newer version of the same key stands before it.
    pub old: bool,
    /// Whether the change is a deletion.
    pub del: bool,
}
