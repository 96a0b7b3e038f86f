ghost use Rattle.std.specs.Prelude.{◌≡◌, ◌-◌};

use thiserror::Error;

/// Bytes are not in the grammar. So many are left from the first byte of the first wrong field on.
#[derive(Clone, Copy, Debug, PartialEq, Eq, Error)]
#[error("the first wrong field begins {left} bytes before the end")]
pub struct BadField {
    pub left: usize,
}

impl BadField {
    /// The place of the first wrong byte in a whole of so many bytes, at whose end the reader's bytes lie.
    pub fn place(self, whole: usize) -> usize
        ensures { result ≡ whole - self.left }
    {
        whole.saturating_sub(self.left)
    }
}
