use rdb_base::Key;

/// Where a walker is on its way to the leaf of its key.
#[derive(Drop)]
pub(crate) struct Walker {
    pub(crate) key: Key,
    /// The leaf that it stands on.
    pub(crate) leaf: u32,
    /// How often it went right.
    pub(crate) rights: u64,
    /// How many splits the table had by which it entered.
    pub(crate) adds: u64,
}
