/// The sizes of a partition that has new data. Sizes are in bytes, as `rdb_base::size` counts them.
#[derive(Clone, Copy, Debug, PartialEq, Eq)]
pub struct PartSize {
    /// Which partition it is, from 0 in key order.
    pub part: u32,
    /// The sizes of its new pairs, the newest change of each key.
    pub new: u64,
    /// The number of the log segment in use, less that of the segment with the partition's oldest entry that is in no
    /// run, also if that entry was overwritten. It is 0 if that segment is not known to be older.
    pub carried_age: u64,
    /// How many runs it has.
    pub runs: u32,
    /// The sizes of all pairs of its runs.
    pub held: u64,
    /// The sizes of the rows that a major compaction would leave.
    pub merged: u64,
    /// How many partitions a split would make of it.
    pub parts: u32,
}
