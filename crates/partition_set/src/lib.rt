//! The key range, cut into partitions. Each has the sorted runs of its keys, and their index.
//!
//! Stands for   the level of all partitions (`specs/Partitions.antt`, `set_level`): for each key the newest change in
//!              the runs of its partition, deletions kept
//! Promises     `get` answers the newest change of the key, a deletion as such, and None where there is none. It reads
//!              at most n + 7 keys if no partition has more than 2^n segments, and takes memory only for a value
//! Goes in      partitions whose low bounds rise and whose indexes stand for their runs; keys
//! Comes out    changes; the partition of a key; the bounds of a partition; the size of all runs together
//! Stands on    rdb_base, remix_view, remix_seek; remix_build in its tests
//! Begin at     src/set.rt, `PartitionSet::get`
//! Leaves open  that memory is there
#![tactic(auto)]

mod lookup;
mod partition;
mod ranges;
mod set;
mod sums;

pub use partition::Partition;
pub use set::PartitionSet;

#[cfg(test)]
mod tests;
