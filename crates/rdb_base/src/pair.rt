ghost use Rattle.std.specs.Prelude.{◌≡◌, IfOk};

use crate::NoMemory;
use crate::change::Change;
use crate::key::Key;
use std::alloc::Global;

/// A key and what an update does at it.
#[derive(Debug, Drop, PartialEq, Eq)]
pub struct Pair {
    pub key: Key,
    pub change: Change,
}

impl Pair {
    /// An equal pair.
    pub fn try_copy(&self, alloc: Global) -> Result<Pair, NoMemory>
        ensures { IfOk result (λ pair. pair ≡ self.now) }
    {
        let key = self.key.try_copy(alloc)?;
        let change = self.change.try_copy(alloc)?;
        Ok(Pair { key, change })
    }
}
