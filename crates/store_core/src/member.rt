use crate::shared_run::SharedRun;

/// A memtable that was frozen.
#[derive(Drop)]
pub(crate) struct Member {
    pub(crate) number: u64,
    /// The number of its first entry.
    pub(crate) base: u64,
    /// The number after its last entry's.
    pub(crate) upto: u64,
    /// The newest change of each of its keys.
    pub(crate) run: SharedRun,
}
