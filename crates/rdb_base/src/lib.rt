//! The words of the store: keys, values, changes, entries, rows and runs, and what changes make of a map.
//!
//! Stands for   one ordered map and its history (`specs/Maps.antt`, `specs/Histories.antt`); sorted runs and their
//!              levels (`specs/Runs.antt`, `specs/Levels.antt`); a pair as bytes (`specs/PairFields.antt`)
//! Promises     a key and a value are within their limits; a key of up to 16 bytes needs no allocation, and no
//!              allocation has room to spare; the order is that of unsigned bytes; a copy is equal; a pair is read
//!              back as it was written; `laws` has what holds of every map, history, run and level
//! Goes in      bytes, and what was made of them
//! Comes out    keys and values, or a refusal with the length that was handed in; pairs lent from bytes, or how many
//!              bytes are left from the first wrong field on
//! Stands on    nothing
//! Begin at     src/key.rt, `Key::try_new`; src/sorted_run.rt; src/laws.rt
//! Leaves open  that memory is there
//! Bytes        docs/formats.md, "Pairs"
#![tactic(auto)]

mod bad_field;
mod byte_order;
mod change;
mod entry;
mod exact_copy;
pub mod fields;
mod key;
mod key_error;
pub mod laws;
pub mod limits;
mod pair;
mod pair_field;
mod row;
mod run_search;
mod sorted_run;
mod steps;
mod told_entries;
mod value;
mod value_error;

pub use bad_field::BadField;
pub use byte_order::compare_bytes;
pub use change::Change;
pub use entry::Entry;
pub use key::Key;
pub use key_error::KeyError;
pub use limits::{KEY_MAX, NUMBER_MAX, VALUE_MAX};
pub use pair::Pair;
pub use pair_field::{LentChange, PairField, PairLimits, read_pair, size, write_pair};
pub use row::Row;
pub use run_search::{find_in, place_of};
pub use sorted_run::SortedRun;
pub use steps::Steps;
pub use told_entries::ToldEntries;
pub use value::Value;
pub use value_error::ValueError;

/// Out of memory, where that is the only refusal.
pub type NoMemory = std::alloc::AllocError;

#[cfg(test)]
mod pair_tests;
#[cfg(test)]
mod run_tests;
#[cfg(test)]
mod tests;
