//! The index of several sorted runs, and the search in it: one binary search, however many runs there are.
//!
//! Stands for   the runs that an index orders (`specs/Indexes.antt`, `Indexes`), and their level
//! Promises     `Remix::seek` finds the first key that is not below the sought one. If there are at most 2^n segments,
//!              it reads at most n + 6 keys, however many runs there are. Over the same runs there is only one index
//! Goes in      runs, as a type that implements `Runs`; a key of any bytes
//! Comes out    a segment and a place of it
//! Stands on    rdb_base, remix_view
//! Begin at     src/remix.rt, `Remix::seek`; src/runs.rt, `Runs`
//! Leaves open  that memory is there; that each key that a search reads is counted
#![tactic(auto)]

mod anchor_keys;
mod anchors;
pub mod laws;
mod remix;
mod run_in_memory;
mod runs;
mod search;
mod share;

pub use anchors::Anchors;
pub use remix::Remix;
pub use run_in_memory::RunInMemory;
pub use runs::Runs;
pub use share::Share;

#[cfg(test)]
mod tests;
