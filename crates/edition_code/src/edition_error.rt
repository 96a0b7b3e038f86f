use thiserror::Error;

/// Why a payload is not decoded.
#[derive(Clone, Copy, Debug, Drop, Error, PartialEq, Eq)]
pub enum EditionError {
    /// The payload is no edition. The first byte of its first wrong field stands at this place.
    #[error("no edition: the field at byte {at} is wrong")]
    BadEdition { at: usize },
    /// Out of memory.
    #[error("out of memory")]
    Memory,
}
