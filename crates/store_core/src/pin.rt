use crate::levels::Levels;

/// Levels that are kept, and the number after the last entry that is in them.
#[derive(Drop)]
pub(crate) struct Pin {
    pub(crate) front: u64,
    pub(crate) below: Levels,
}
