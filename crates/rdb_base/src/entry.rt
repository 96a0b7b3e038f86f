ghost use Rattle.std.specs.Prelude.{◌≡◌, IfOk};

use crate::NoMemory;
use crate::change::Change;
use crate::key::Key;
use std::alloc::Global;

/// One accepted update: whose it is, which of that caller's updates it is, and what it does at which key.
#[derive(Debug, Drop, PartialEq, Eq)]
pub struct Entry {
    pub caller: u32,
    /// Counted from 0 for each caller.
    pub ordinal: u64,
    pub key: Key,
    pub change: Change,
}

impl Entry {
    /// An equal entry.
    pub fn try_copy(&self, alloc: Global) -> Result<Entry, NoMemory>
        ensures { IfOk result (λ entry. entry ≡ self.now) }
    {
        let key = self.key.try_copy(alloc)?;
        let change = self.change.try_copy(alloc)?;
        Ok(Entry {
            caller: self.caller,
            ordinal: self.ordinal,
            key,
            change,
        })
    }
}
