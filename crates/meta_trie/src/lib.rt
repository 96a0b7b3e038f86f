//! Which leaf a key belongs to, by a table of the prefixes of anchors.
//!
//! Stands for   anchors with their leaves, in the order of adding (`specs/Tries.antt`, `TrieState`)
//! Promises     `find` gives the leaf of the greatest anchor that is not above the key (`cover`), by a binary search
//!              over the lengths of its prefixes; `add` adds one anchor or changes nothing; after `reserve` it cannot
//!              fail
//! Goes in      anchors with their leaves; keys
//! Comes out    leaves; `TrieFull`, exactly where there would be more than `NODES_MAX` nodes
//! Stands on    rdb_base
//! Begin at     src/trie.rt, `MetaTrie`
//! Leaves open  that there is memory
#![tactic(auto)]

mod adding;
mod finding;
mod leaf_entry;
pub mod limits;
mod next_bytes;
mod node;
mod preparing;
mod ready;
mod table;
mod trie;
mod trie_error;

pub use limits::NODES_MAX;
pub use trie::MetaTrie;
pub use trie_error::TrieError;

#[cfg(test)]
mod tests;
