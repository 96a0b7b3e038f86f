//! Sorted runs as files: blocks of pairs, a count for each unit, and a footer; read through the trait of all runs.
//!
//! Stands for   a function from blocks to bytes (`specs/Tables.antt`, `table_of`), and one from bytes to blocks or the
//!              first wrong place (`specs/TableReading.antt`, `blocks_of`)
//! Promises     bytes are taken exactly where their SHA-256 is the one that was kept and they are the table of some run,
//!              which is then the only one; else the first wrong place is told; what is written is read back
//! Goes in      sorted runs; bytes, which may be any at all, with a digest that was kept elsewhere
//! Comes out    bytes; tables, which are runs that several owners share
//! Stands on    rdb_base, block_code, remix_seek
//! Begin at     src/table.rt, `Table::open`; src/builder.rt, `TableBuilder::build`
//! Leaves open  that memory is there
//! Bytes        docs/formats.md, "Tables"
#![tactic(auto)]

mod block_place;
mod block_places;
mod builder;
mod fields;
pub mod format;
mod held;
pub mod laws;
mod places;
mod reading;
mod table;
mod table_error;
mod writing;

pub use block_place::BlockPlace;
pub use builder::TableBuilder;
pub use format::TABLE_MAX;
pub use table::Table;
pub use table_error::TableError;

#[cfg(test)]
mod tests;
