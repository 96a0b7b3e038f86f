/// An anchor with its leaf, and its neighbours in the order of keys. Entries are named by their place in the order of
/// adding.
#[derive(Drop)]
pub(crate) struct LeafEntry {
    pub(crate) anchor: Vec<u8>,
    pub(crate) leaf: u32,
    /// The place of the greatest anchor below this one. The empty anchor has none: there it is 0, and nothing reads it.
    pub(crate) previous: usize,
    /// The place of the least anchor above this one.
    pub(crate) next: Option<usize>,
}
