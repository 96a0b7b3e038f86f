ghost use Rattle.std.specs.Prelude.{◌≡◌, ◌+◌, ◌<◌, Some, IfOk, OnErr, length, slice_get};
ghost use Rattle.std.specs.List.{AllByRecursion};
ghost use Rattle.rdb_base.specs.Runs.{change_at};
ghost use Rattle.partition_set.specs.Partitions.{IsSet, set_level, set_size, most_of};
ghost use Rattle.partition_set.specs.Bounds.{IsPartOf, LendsBound, low_at};
ghost use Rattle.partition_set.specs.Lookups.{HasValue, GetCost};

use crate::lookup::change_of;
use crate::partition::{Partition, shared};
use crate::ranges::{bound_at, bounds_passed};
use crate::sums::size_of_runs;
use rdb_base::{Change, Key, NoMemory, Steps};
use remix_seek::{Runs, Share};
use std::alloc::Global;
use std::marker::{Brand, Model};
use std::sync::ledger::{Blank, Ledger};

/// Partitions whose ranges follow one another, the first from the empty bound on.
#[derive(Drop)]
pub struct PartitionSet<T: Runs> {
    parts: Vec<Partition<T>>,
}

impl<T: Runs> Model for PartitionSet<T> {
    ghost use Rattle.std.specs.Prelude.{List};
    ghost use Rattle.partition_set.specs.Partitions.{PartState, IsSet};

    ghost Value = { List (PartState T) };

    ghost view = { λ s. s.parts.items };

    ghost invariant = { λ s. IsSet T.run s.parts.items };
}

impl<T: Runs + Drop> PartitionSet<T> {
    /// The set of these partitions: bounds rise from the empty one on, keys are in range, and each index stands for
    /// its runs.
    pub fn make(parts: Vec<Partition<T>>) -> PartitionSet<T>
        requires { IsSet T.run parts.items }
        ensures { result ≡ parts.items }
    {
        PartitionSet { parts }
    }

    /// How many partitions there are.
    pub fn count(&self) -> usize
        ensures { result ≡ length self.now }
    {
        self.parts.len()
    }

    /// A partition.
    pub fn part(&self, index: usize) -> &Partition<T>
        requires { index < length self.now }
        ensures { slice_get self.now index ≡ Some result.now }
    {
        &self.parts[index]
    }

    /// The low bound of a partition, and the high one, which the last has not.
    pub fn bounds(&self, index: usize) -> (&[u8], Option<&[u8]>)
        requires { index < length self.now }
        ensures low { low_at self.now index ≡ Some result.0.now }
        ensures high { LendsBound (low_at self.now (index + 1)) result.1 }
    {
        let part = &self.parts[index];
        let low = part.low.as_slice();
        (low, bound_at(self.parts.as_slice(), index + 1))
    }

    /// The partition of a key: the last one whose low bound is not above it.
    pub fn of_key(&self, key: &[u8]) -> usize
        ensures part { IsPartOf self.now key.now result }
        ensures set { IsSet T.run self.now }
    {
        bounds_passed(self.parts.as_slice(), key) - 1
    }

    /// The change at a key, deletions told as such. None exactly where the partition of the key has no change there.
    /// It can run out of memory only where there is a value to copy.
    pub fn get(&self, alloc: Global, key: &Key) -> Result<Option<Change>, NoMemory>
        ensures change { IfOk result (λ found. found ≡ change_at (set_level T.run self.now) key.now) }
        ensures memory { OnErr result (HasValue (change_at (set_level T.run self.now) key.now)) }
    {
        get_alone::<T, Brand>(alloc, self, key, Blank::new(1))
    }

    /// The change at a key, as `get` tells it. A key or an anchor that is read is one step.
    pub fn get_counted<L: Ledger>(
        &self,
        alloc: Global,
        key: &Key,
        steps: &mut Steps<L>,
    ) -> Result<Option<Change>, NoMemory>
        ensures change { IfOk result (λ found. found ≡ change_at (set_level T.run self.now) key.now) }
        ensures memory { OnErr result (HasValue (change_at (set_level T.run self.now) key.now)) }
        ensures cost { GetCost self.now steps.old steps.new }
        ensures some { AllByRecursion (λ part. 0 < length part.view.segments) self.now → steps.old < steps.new }
    {
        let index = self.of_key(key.as_bytes());
        let found = self.part(index);
        change_of(alloc, found, key.as_bytes(), steps)
    }

    /// The sizes of all runs together, in bytes. It stands still at the greatest number.
    pub fn total(&self) -> u128
        ensures { result ≡ most_of (set_size T.run self.now) }
    {
        let mut total: u128 = 0;
        'parts: for part in self.parts.as_slice() {
            total = total.saturating_add(size_of_runs(part.runs.as_slice()));
        }
        total
    }
}

/// A get whose steps nobody counts.
fn get_alone<T: Runs + Drop, L: Ledger>(
    alloc: Global,
    set: &PartitionSet<T>,
    key: &Key,
    blank: Blank,
) -> Result<Option<Change>, NoMemory>
    requires name { blank.name ≡ L.name }
    requires parts { blank.parts ≡ L.parts }
    requires some { 0 < blank.parts }
    ensures change { IfOk result (λ found. found ≡ change_at (set_level T.run set.now) key.now) }
    ensures memory { OnErr result (HasValue (change_at (set_level T.run set.now) key.now)) }
{
    let mut steps = Steps::<L>::begin(blank);
    set.get_counted(alloc, key, &mut steps)
}

/// Partitions are shared one by one.
impl<T: Runs + Share + Drop> Share for PartitionSet<T> {
    fn share(&self, alloc: Global) -> Result<PartitionSet<T>, NoMemory> {
        Ok(PartitionSet {
            parts: shared(alloc, self.parts.as_slice())?,
        })
    }
}
