//! The payloads of a log: a header, or entries one after another.
//!
//! Stands for   one grammar (`specs/Payloads.antt`)
//! Promises     a payload is decoded to what the grammar has there, or refused at the first byte of the first wrong
//!              field; what is encoded is read back
//! Goes in      bytes; entries
//! Comes out    entries and the number of the first; bytes
//! Stands on    rdb_base
//! Begin at     src/decoding.rt, `decode_entries`; src/batch.rt, `Batch`
//! Leaves open  that memory is there
//! Bytes        docs/formats.md, "Log payloads"
#![tactic(auto)]

mod batch;
mod decoding;
mod encoding;
mod entry_error;
mod field_error;
pub mod format;
mod laws;

pub use batch::Batch;
pub use decoding::{decode_entries, decode_header};
pub use encoding::{encode_entries, encode_header, entry_len};
pub use entry_error::EntryError;
pub use format::ENTRY_MAX;
pub use laws::payloads_read_back;

#[cfg(test)]
mod tests;
