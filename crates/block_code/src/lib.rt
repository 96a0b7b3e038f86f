//! Blocks of a table: pairs whose keys rise, as units of 4,096 bytes.
//!
//! Stands for   a function from pairs to bytes (`specs/Blocks.antt`, `block`), and one from bytes to pairs or the first
//!              wrong place (`specs/Reading.antt`, `block_of`)
//! Promises     bytes are taken exactly where they are the block of some pairs, which are then the only ones; else the
//!              first wrong place is told; what is written is read back
//! Goes in      pairs; bytes, which may be any at all
//! Comes out    bytes; how many pairs a block has, or the first wrong place; pairs, lent or copied
//! Stands on    rdb_base
//! Begin at     src/reading.rt, `read_block`; src/writing.rt, `write_block`
//! Leaves open  that memory is there
//! Bytes        docs/formats.md, "Blocks"
#![tactic(auto)]

mod ends;
mod fields;
pub mod format;
pub mod laws;
mod lent;
mod reading;
mod writing;

pub use ends::BlockEnds;
pub use format::{FIRST_LIMITS, UNIT};
pub use lent::{lent_pair, pair_at};
pub use reading::{check_block, read_block};
pub use writing::{block_fits, write_block};

#[cfg(test)]
mod tests;
