//! The rows of a store in memory: leaves with the newer changes over one run of older ones.
//!
//! Stands for   one sorted run of changes, deletions told as such (`specs/Memories.antt`, `level`)
//! Promises     a find lends the change at a key, without a copy; room for one change is made first, or refused for
//!              memory, and then all is as it was; the change itself is never refused
//! Goes in      pairs, moved
//! Comes out    changes, lent
//! Stands on    rdb_base, worm_leaf, meta_trie, leaf_table
//! Begin at     src/memory_rows.rt, `MemoryRows`; then src/merging.rt
//! Leaves open  that there is memory
#![tactic(auto)]

pub mod limits;
mod memory_rows;
mod merging;
mod uncounted;

pub use limits::MERGE_SIZE;
pub use memory_rows::MemoryRows;

#[cfg(test)]
mod tests;
