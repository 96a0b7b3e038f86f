//! What a decision makes of a partition and of new pairs above it.
//!
//! Stands for   the pieces of a decision (`partition_plan`, `specs/Pieces.antt`, `pieces_of`)
//! Promises     the pieces follow one another in the range of the partition, and their rows, under what is carried on,
//!              are those of the new pairs above the old runs, each once. The old side is walked in the order of its
//!              index: no two keys of old runs are compared (the code shows that, no clause says it)
//! Goes in      a partition, the newest change of each new key, a decision
//! Comes out    pieces; or the sizes that a merge would leave, without memory
//! Stands on    rdb_base, remix_view, remix_seek, partition_set, partition_plan; remix_build in its tests
//! Begin at     src/carrying.rt, `carry_out`; src/merging.rt, `next_row`
//! Leaves open  that memory is there; how many keys are read and compared
#![tactic(auto)]

mod ahead;
mod carrying;
mod counted;
mod counting;
mod cut;
mod merge_place;
mod merging;
mod origin;
mod piece;
mod reads;

pub use carrying::carry_out;
pub use counting::count_merged;
pub use piece::Piece;

#[cfg(test)]
mod tests;
