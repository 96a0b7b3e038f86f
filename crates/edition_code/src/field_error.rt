ghost use Rattle.std.specs.Prelude.{◌≡◌};
ghost use Rattle.edition_code.specs.declared.field_error.FieldError.TheVariants.{Bad, Memory};

use rdb_base::{BadField, NoMemory};

/// Why a field is not decoded.
#[derive(Clone, Copy, Debug, PartialEq, Eq)]
pub enum FieldError {
    /// It is wrong, and this many bytes are left from its first byte on.
    Bad(usize),
    /// Out of memory.
    Memory,
}

impl From<BadField> for FieldError {
    ghost from_gives = { λ bad e. e ≡ Bad bad.left };

    fn from(bad: BadField) -> FieldError {
        FieldError::Bad(bad.left)
    }
}

impl From<NoMemory> for FieldError {
    ghost from_gives = { λ none e. e ≡ Memory };

    fn from(_none: NoMemory) -> FieldError {
        FieldError::Memory
    }
}
