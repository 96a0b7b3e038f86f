ghost use Rattle.std.specs.Prelude.{◌≡◌, IfOk};

use crate::index_field::IndexField;
use crate::run_field::RunField;
use rdb_base::NoMemory;
use std::alloc::Global;
use std::marker::Model;

/// A partition, as an edition names it: the range of keys from a low bound to that of the next partition.
#[derive(Debug, Drop)]
pub struct EditionPart {
    /// The low bound: no byte for the first partition, 1 to 1,024 bytes for each other one.
    pub low: Vec<u8>,
    /// The base number: each entry of the range with a lower number is in the runs, or was overwritten there.
    pub base: u64,
    /// The files of the runs, the newest first: 0 to 8.
    pub runs: Vec<RunField>,
    /// The file of the runs' index. A partition without a run has none.
    pub index: Option<IndexField>,
}

impl Model for EditionPart {
    ghost use Rattle.edition_code.specs.Values.{PartValue};

    ghost Value = { PartValue };

    ghost view = { λ p. record { low = p.low.items; base = p.base; runs = p.runs.items; index = p.index } };
}

impl EditionPart {
    /// An equal partition.
    pub fn try_copy(&self, alloc: Global) -> Result<EditionPart, NoMemory>
        ensures { IfOk result (λ copy. copy ≡ self.now) }
    {
        Ok(EditionPart {
            low: Vec::from_slice(alloc, self.low.as_slice())?,
            base: self.base,
            runs: Vec::from_slice(alloc, self.runs.as_slice())?,
            index: self.index,
        })
    }
}

/// An equal partition for each of these, in order.
pub(crate) fn copies(alloc: Global, parts: &[EditionPart]) -> Result<Vec<EditionPart>, NoMemory>
    ensures { IfOk result (λ copies. copies.items ≡ parts.now) }
{
    let mut copies = Vec::with_capacity(alloc, parts.len())?;
    'parts: for part in parts {
        copies.push(part.try_copy(alloc)?)?;
    }
    Ok(copies)
}
