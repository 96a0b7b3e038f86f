use worm_leaf::Anchor;

/// A split that happened: the anchor, and the leaf that begins there.
#[derive(Drop)]
pub(crate) struct Split {
    pub(crate) anchor: Anchor,
    pub(crate) leaf: u32,
}
