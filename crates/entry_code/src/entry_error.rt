use thiserror::Error;

/// Why a payload is not decoded.
#[derive(Clone, Copy, Debug, Drop, Error, PartialEq, Eq)]
pub enum EntryError {
    /// The payload is not in the grammar. The first byte of its first wrong field stands at this place.
    #[error("no entries of a log: the field at byte {at} is wrong")]
    BadEntry { at: usize },
    /// Out of memory.
    #[error("out of memory")]
    Memory,
}
