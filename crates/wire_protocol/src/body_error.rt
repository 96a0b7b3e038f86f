ghost use Rattle.std.specs.Prelude.{◌≡◌};
ghost use Rattle.wire_protocol.specs.declared.body_error.BodyError.TheVariants.{Bad};

use crate::refused::Refused;

/// Why a body gives no request: the code of the first test that it fails, or no memory.
#[derive(Clone, Copy, Debug, PartialEq, Eq)]
pub enum BodyError {
    Bad(u8),
    Memory,
}

impl From<Refused> for BodyError {
    ghost from_gives = { λ r e. e ≡ Bad r.code };

    fn from(refused: Refused) -> BodyError {
        BodyError::Bad(refused.code)
    }
}
