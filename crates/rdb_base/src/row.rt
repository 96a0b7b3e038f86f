ghost use Rattle.std.specs.Prelude.{◌≡◌, IfOk};

use crate::NoMemory;
use crate::key::Key;
use crate::value::Value;
use std::alloc::Global;

/// A key with its value.
#[derive(Debug, Drop, PartialEq, Eq)]
pub struct Row {
    pub key: Key,
    pub value: Value,
}

impl Row {
    /// An equal row.
    pub fn try_copy(&self, alloc: Global) -> Result<Row, NoMemory>
        ensures { IfOk result (λ row. row ≡ self.now) }
    {
        let key = self.key.try_copy(alloc)?;
        let value = self.value.try_copy(alloc)?;
        Ok(Row { key, value })
    }
}
