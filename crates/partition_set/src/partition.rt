ghost use Rattle.std.specs.Prelude.{◌≡◌, IfOk};

use rdb_base::NoMemory;
use remix_seek::{Remix, Share};
use std::alloc::Global;
use std::marker::Model;

/// The runs of a range of keys, with their index.
#[derive(Drop)]
pub struct Partition<T> {
    /// The first key of the range, or a bound below it. The range ends before the low bound of the next partition.
    pub low: Vec<u8>,
    /// The base number: each entry of the history with a lower number is to be in the runs. No contract says so yet.
    pub base: u64,
    /// The runs, the newest first.
    pub runs: Vec<T>,
    /// The index of the runs.
    pub remix: Remix,
}

impl<T> Model for Partition<T> {
    ghost use Rattle.partition_set.specs.Partitions.{PartState};

    ghost Value = { PartState T };

    ghost view = { λ p. record {
      low = p.low.items;
      base = p.base;
      runs = p.runs.items;
      view = p.remix.view;
      anchors = p.remix.anchors;
    } };

    ghost invariant = { λ p. Unit {0} };
}

/// Runs and index are shared as their own types tell; the bound is copied.
impl<T: Share + Drop> Share for Partition<T> {
    fn share(&self, alloc: Global) -> Result<Partition<T>, NoMemory> {
        Ok(Partition {
            low: Vec::from_slice(alloc, self.low.as_slice())?,
            base: self.base,
            runs: shared(alloc, self.runs.as_slice())?,
            remix: self.remix.share(alloc)?,
        })
    }
}

/// Each of these shared, in order.
pub(crate) fn shared<T: Share + Drop>(alloc: Global, values: &[T]) -> Result<Vec<T>, NoMemory>
    ensures { IfOk result (λ copies. copies.items ≡ values.now) }
{
    let mut copies = Vec::with_capacity(alloc, values.len())?;
    'values: for value in values {
        copies.push(value.share(alloc)?)?;
    }
    Ok(copies)
}
