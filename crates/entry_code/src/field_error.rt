ghost use Rattle.std.specs.Prelude.{◌≡◌};
ghost use Rattle.entry_code.specs.declared.field_error.FieldError.TheVariants.{Bad};

use rdb_base::BadField;

/// Why a field is not decoded.
#[derive(Clone, Copy, Debug, PartialEq, Eq)]
pub enum FieldError {
    /// It is wrong, and this many bytes are left from its first byte on.
    Bad(usize),
    /// Out of memory.
    Memory,
}

impl From<BadField> for FieldError {
    ghost from_gives = { λ bad e. e ≡ Bad bad.left };

    fn from(bad: BadField) -> FieldError {
        FieldError::Bad(bad.left)
    }
}
