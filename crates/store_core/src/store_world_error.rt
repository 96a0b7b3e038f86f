ghost use Rattle.std.specs.Prelude.{◌≡◌};
ghost use Rattle.store_core.specs.declared.store_world_error.StoreWorldError.TheVariants.{Memory};

use std::alloc::AllocError;

/// Why events did not happen.
#[derive(Debug, Drop, PartialEq, Eq)]
pub enum StoreWorldError {
    /// The event at this place has no step. It changed nothing, and those before it have happened.
    NoStep { event: u64 },
    /// Out of memory.
    Memory,
}

impl From<AllocError> for StoreWorldError {
    ghost from_gives = { λ _ e. e ≡ Memory };

    fn from(_: AllocError) -> Self {
        StoreWorldError::Memory
    }
}
