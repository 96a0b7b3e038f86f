/// All that an anchor needs, made before it is added.
#[derive(Drop)]
pub(crate) struct Ready {
    pub(crate) anchor: Vec<u8>,
    /// The length of its longest prefix that has a node.
    pub(crate) len: usize,
    /// The place of the greatest anchor below it.
    pub(crate) previous: usize,
    /// Its longer prefixes, the shortest first.
    pub(crate) prefixes: Vec<Vec<u8>>,
}
