ghost use Rattle.std.specs.Prelude.{◌≡◌};
ghost use Rattle.worm_core.specs.declared.leaf_world_error.LeafWorldError.TheVariants.{Memory};

use std::alloc::AllocError;

/// Why events did not happen.
#[derive(Debug, Drop, PartialEq, Eq)]
pub enum LeafWorldError {
    /// The event at this place has no step. It changed nothing, and those before it have happened.
    NoStep { event: u64 },
    /// Out of memory.
    Memory,
}

impl From<AllocError> for LeafWorldError {
    ghost from_gives = { λ _ e. e ≡ Memory };

    fn from(_: AllocError) -> Self {
        LeafWorldError::Memory
    }
}
