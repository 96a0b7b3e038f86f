//! A leaf of the memory table: the pairs of one range of keys.
//!
//! Stands for   a low bound, perhaps a high one, and pairs by rising keys, all within the bounds
//!              (`specs/Leaves.antt`, `LeafState`)
//! Promises     a leaf is a map on its range; a split loses no pair, and parts the range at the shortest prefix that
//!              does; only `make` takes memory
//! Goes in      pairs, moved
//! Comes out    changes, lent; a split's anchor
//! Stands on    rdb_base
//! Begin at     src/leaf.rt, `Leaf`
//! Leaves open  that there is memory
#![tactic(auto)]

mod anchor;
mod leaf;
pub mod limits;
mod moving;
mod parting;
mod searching;

pub use anchor::Anchor;
pub use leaf::Leaf;
pub use limits::LEAF_PAIRS_MAX;

#[cfg(test)]
mod tests;
