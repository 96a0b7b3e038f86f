//! What a compaction decides for each partition, and what each decision leaves.
//!
//! Stands for   the plan (`specs/Plans.antt`, `planned`); what it makes of a partition (`specs/Pieces.antt`, `pieces_of`)
//!              and of all of them (`specs/Compactions.antt`, `compacted`)
//! Promises     each partition with new data gets the first decision whose test holds, and no sum wraps; whatever is
//!              decided, the rows of what is carried on over the partitions stay (`laws`)
//! Goes in      the sizes of partitions and of their new data
//! Comes out    decisions
//! Stands on    rdb_base
//! Begin at     src/planning.rt, `plan`; specs/Compactions.antt
//! Leaves open  that the sizes are those of real partitions; who calls `plan` has to say so
//! Numbers      docs/formats.md, "The compaction plan"
#![tactic(auto)]

mod decision;
pub mod laws;
pub mod limits;
mod part_size;
mod planning;
mod so_far;

pub use decision::Decision;
pub use limits::{PART_MAX, PARTITIONS_MAX, RUNS_MAX};
pub use part_size::PartSize;
pub use planning::plan;

#[cfg(test)]
mod tests;
