//! Editions: which files are the tables of a store, and from where on its log counts.
//!
//! Stands for   one grammar (`specs/Editions.antt`, `IsEdition`) and one function from editions to bytes
//!              (`edition_bytes`)
//! Promises     a payload is decoded to the one edition whose bytes it has, or refused at the first byte of the first
//!              wrong field (`specs/Reading.antt`, `edition_of`); what is encoded is read back
//! Goes in      bytes, which may be any at all; editions
//! Comes out    an edition, or the place of the first wrong field; bytes
//! Stands on    rdb_base
//! Begin at     src/decoding.rt, `decode_edition`; src/encoding.rt, `encode_edition`
//! Leaves open  that memory is there
//! Bytes        docs/formats.md, "Editions"
#![tactic(auto)]

mod decoding;
mod edition;
mod edition_error;
mod edition_part;
mod encoding;
mod field_error;
mod file_numbers;
mod files;
pub mod format;
mod index_field;
pub mod laws;
mod lent_head;
mod parts;
mod run_field;
mod split;
mod told_numbers;

pub use decoding::decode_edition;
pub use edition::Edition;
pub use edition_error::EditionError;
pub use edition_part::EditionPart;
pub use encoding::encode_edition;
pub use format::EDITION_MAX;
pub use index_field::IndexField;
pub use run_field::RunField;

#[cfg(test)]
mod tests;
