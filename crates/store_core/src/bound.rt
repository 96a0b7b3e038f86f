ghost use Rattle.std.specs.Prelude.{◌≡◌};

use std::marker::Model;

/// Where a page or a partition begins: at the first key that is not below these bytes. Contracts see the bytes.
#[derive(Debug, Drop)]
pub struct Bound {
    bytes: Vec<u8>,
}

impl Model for Bound {
    ghost use Rattle.std.specs.Prelude.{ℕ, List};

    ghost Value = { List ℕ };

    ghost view = { λ b. b.bytes.items };
}

impl Bound {
    /// The bound of these bytes.
    pub fn new(bytes: Vec<u8>) -> Bound
        ensures { result ≡ bytes.items }
    {
        Bound { bytes }
    }

    /// Its bytes.
    pub fn as_bytes(&self) -> &[u8]
        ensures { result.now ≡ self.now }
    {
        self.bytes.as_slice()
    }
}
