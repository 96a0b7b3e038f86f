ghost use Rattle.std.specs.Prelude.{◌≡◌, IfOk};

use crate::NoMemory;
use crate::value::Value;
use std::alloc::Global;

/// What an update does at its key.
#[derive(Debug, Drop, PartialEq, Eq)]
pub enum Change {
    /// The key has this value from then on.
    Put(Value),
    /// The key has no value from then on.
    Del,
}

impl Change {
    /// An equal change.
    pub fn try_copy(&self, alloc: Global) -> Result<Change, NoMemory>
        ensures { IfOk result (λ change. change ≡ self.now) }
    {
        match self {
            Change::Put(value) => Ok(Change::Put(value.try_copy(alloc)?)),
            Change::Del => Ok(Change::Del),
        }
    }
}
