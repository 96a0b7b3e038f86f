ghost use Rattle.std.specs.Prelude.{◌≡◌, ◌<◌, ◌≤◌, ◌^◌, true, false, length, IsSome, IsNone, IfSome};
ghost use Rattle.rdb_base.specs.Runs.{IsRun};

use crate::runs::Runs;
use crate::share::Share;
use rdb_base::{Change, Key, NoMemory, Pair, SortedRun, Steps, compare_bytes};
use std::alloc::Global;
use std::marker::Model;
use std::sync::ledger::Ledger;

/// A sorted run in memory of fewer than 2^32 pairs. Contracts see it as the list of its pairs.
#[derive(Drop)]
pub struct RunInMemory {
    run: SortedRun,
}

impl Model for RunInMemory {
    ghost use Rattle.std.specs.Prelude.{◌<◌, ◌^◌, List, length};
    ghost use Rattle.rdb_base.specs.declared.pair.Pair.{Pair};

    ghost Value = { List Pair };

    ghost view = { λ r. r.run };

    ghost invariant = { λ r. length r.run < 2 ^ 32 };
}

impl RunInMemory {
    /// The run of these pairs. None exactly where they are 2^32 or more.
    pub fn new(run: SortedRun) -> Option<RunInMemory>
        ensures fits { length run < 2 ^ 32 → IsSome result }
        ensures long { 2 ^ 32 ≤ length run → IsNone result }
        ensures same { IfSome result (λ kept. kept ≡ run) }
    {
        if run.len() as u64 >= 1 << 32 {
            return None;
        }
        Some(RunInMemory { run })
    }

    /// The run of pairs whose keys may not rise. None exactly where they do not, or the pairs are 2^32 or more.
    pub fn of(pairs: Vec<Pair>) -> Option<RunInMemory>
        ensures run { IfSome result (λ kept. (kept ≡ pairs.items) × IsRun pairs.items) }
        ensures none { IsNone result → IsRun pairs.items → 2 ^ 32 ≤ length pairs.items }
    {
        if !are_rising(pairs.as_slice()) {
            return None;
        }
        RunInMemory::new(SortedRun::of(pairs))
    }
}

/// Whether each key is above the one before.
fn are_rising(pairs: &[Pair]) -> bool
    ensures yes { result ≡ true → IsRun pairs.now }
    ensures no { result ≡ false → IsRun pairs.now → ⊥ }
{
    let mut at: usize = 1;
    'pairs: while at < pairs.len() {
        let before = &pairs[at - 1];
        let next = &pairs[at];
        if !compare_bytes(before.key.as_bytes(), next.key.as_bytes()).is_lt() {
            return false;
        }
        at += 1;
    }
    true
}

impl Runs for RunInMemory {
    ghost run = { λ run. run };

    fn len(&self) -> u32 {
        self.run.as_slice().len() as u32
    }

    fn size(&self) -> u128 {
        self.run.size()
    }

    fn lent_key<L: Ledger>(&self, place: u32, steps: &mut Steps<L>) -> &[u8] {
        steps.tick();
        self.run.at(place as usize).key.as_bytes()
    }

    fn lent_value(&self, place: u32) -> Option<&[u8]> {
        match &self.run.at(place as usize).change {
            Change::Put(value) => Some(value.as_bytes()),
            Change::Del => None,
        }
    }

    fn key_at<L: Ledger>(
        &self,
        alloc: Global,
        place: u32,
        steps: &mut Steps<L>,
    ) -> Result<Key, NoMemory> {
        steps.tick();
        self.run.at(place as usize).key.try_copy(alloc)
    }

    fn change_at(&self, alloc: Global, place: u32) -> Result<Change, NoMemory> {
        self.run.at(place as usize).change.try_copy(alloc)
    }
}

/// A run in memory is copied.
impl Share for RunInMemory {
    fn share(&self, alloc: Global) -> Result<RunInMemory, NoMemory> {
        Ok(RunInMemory {
            run: self.run.try_copy(alloc)?,
        })
    }
}
