//! Builds the index of several sorted runs.
//!
//! Stands for   the index of runs, the newest first (`remix_seek`, `specs/Indexes.antt`, `Indexes`)
//! Promises     if `build` succeeds, its index stands for the runs, and so is the only one that does; it has read each
//!              key once, and the first key of each segment once more
//! Goes in      up to eight runs
//! Comes out    an index, sealed: a share of it copies no selector and no key
//! Stands on    remix_seek, remix_view, rdb_base
//! Begin at     src/building.rt, `build`
//! Leaves open  that memory is there; how many keys are read before it runs out of memory
#![tactic(auto)]

mod building;
mod counts;
mod cutting;
mod heads;
mod lengths;
mod order;
mod packing;

pub use building::build;

#[cfg(test)]
mod tests;
