/// What a reader finds for a key: the leaf that the published anchors give, and how many anchors these are.
#[derive(Debug, Clone, Copy, PartialEq, Eq)]
pub struct Trail {
    pub start: u32,
    pub adds: u64,
}
