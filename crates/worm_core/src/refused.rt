ghost use Rattle.std.specs.Prelude.{◌≡◌};
ghost use Rattle.worm_core.specs.declared.refused.Refused.TheVariants.{Memory};
ghost use Rattle.worm_core.specs.Refusals.{error_at};

use crate::leaf_world_error::LeafWorldError;
use std::alloc::AllocError;

/// Why one event did not happen.
#[derive(Drop)]
pub(crate) enum Refused {
    /// There is no step for it.
    NoStep,
    /// Out of memory.
    Memory,
}

impl Refused {
    /// The refusal of the event at a place of a list.
    pub(crate) fn at(self, event: u64) -> LeafWorldError
        ensures { result ≡ error_at self event }
    {
        match self {
            Refused::NoStep => LeafWorldError::NoStep { event },
            Refused::Memory => LeafWorldError::Memory,
        }
    }
}

impl From<AllocError> for Refused {
    ghost from_gives = { λ _ e. e ≡ Memory };

    fn from(_: AllocError) -> Self {
        Refused::Memory
    }
}
