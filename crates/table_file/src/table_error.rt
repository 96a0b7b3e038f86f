ghost use Rattle.std.specs.Prelude.{◌≡◌};
ghost use Rattle.table_file.specs.declared.table_error.TableError.TheVariants.{Memory};

use std::alloc::AllocError;
use thiserror::Error;

/// Why a table is not opened.
#[derive(Clone, Copy, Debug, Drop, Error, PartialEq, Eq)]
pub enum TableError {
    /// The SHA-256 of the bytes is not the one that was kept.
    #[error("the table's SHA-256 is not the one that was kept")]
    WrongDigest { kept: [u8; 32], found: [u8; 32] },
    /// The bytes are a table of no run. The first byte of the first wrong field stands at this place.
    #[error("no table: the field at byte {at} is wrong")]
    BadTable { at: u64 },
    /// Out of memory. So is a table of more than `TABLE_MAX` bytes.
    #[error("out of memory")]
    Memory,
}

impl From<AllocError> for TableError {
    ghost from_gives = { λ _ e. e ≡ Memory };

    fn from(_: AllocError) -> Self {
        TableError::Memory
    }
}
