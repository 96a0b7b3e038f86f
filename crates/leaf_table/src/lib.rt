//! A memory table's pairs: leaves side by side, and the trie that finds the leaf of a key.
//!
//! Stands for   leaves by rising ranges, which part all keys (`specs/Chains.antt`, `PartsAll`), and so one sorted run:
//!              `pairs_of`
//! Promises     a find gives the run's change at the key; a put sets one pair and cannot fail; a full leaf is
//!              split in two, and no pair is lost; a refused split changes nothing
//! Goes in      pairs, moved
//! Comes out    changes, lent; all pairs, moved
//! Stands on    rdb_base, worm_leaf, meta_trie
//! Begin at     src/leaf_table.rt, `LeafTable`; then src/splitting.rt and src/emptying.rt
//! Leaves open  that there is memory; that a split for which the trie has no room is refused as full, not as out of memory
#![tactic(auto)]

mod emptying;
mod finding;
mod leaf_table;
pub mod limits;
mod split_error;
mod splitting;

pub use leaf_table::LeafTable;
pub use limits::LEAVES_MAX;
pub use split_error::SplitError;

#[cfg(test)]
mod tests;
