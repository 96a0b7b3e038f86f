use crate::levels::Levels;

/// A memtable, and what lies below it.
#[derive(Drop)]
pub(crate) struct Version {
    /// The memtable's number.
    pub(crate) memtable: u64,
    /// The number of the memtable's first entry.
    pub(crate) base: u64,
    pub(crate) below: Levels,
}
