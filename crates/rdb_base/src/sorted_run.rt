ghost use Rattle.std.specs.Prelude.{◌≡◌, ℕ, ◌+◌, ◌^◌, ◌≤◌, ◌<◌, ◌++◌, ◌∷◌, [], length, slice_get, Some, IfOk, OnErr, OnOk};
ghost use Rattle.rdb_base.specs.Runs.{IsRun, AreBelow, change_at, sizes};
ghost use Rattle.rdb_base.specs.Searches.{LendsChange};

use crate::NoMemory;
use crate::change::Change;
use crate::pair::Pair;
use crate::pair_field::size;
use crate::run_search::find_in;
use crate::steps::Steps;
use std::alloc::Global;
use std::marker::Model;
use std::sync::ledger::Ledger;

/// A sorted run: pairs whose keys rise, each key once. Contracts see it as the list of its pairs.
#[derive(Drop)]
pub struct SortedRun {
    pairs: Vec<Pair>,
    /// The sizes of all pairs together, in bytes.
    size: u128,
}

impl Model for SortedRun {
    ghost use Rattle.std.specs.Prelude.{◌≡◌, ◌≤◌, ◌*◌, List, length};
    ghost use Rattle.rdb_base.specs.Runs.{IsRun, sizes};
    ghost use Rattle.rdb_base.specs.declared.limits.TheConstants.{PAIR_MAX};
    ghost use Rattle.rdb_base.specs.declared.pair.Pair.{Pair};

    ghost Value = { List Pair };

    ghost view = { λ r. r.pairs.items };

    ghost invariant = { λ r. IsRun r.pairs.items × (r.size ≡ sizes r.pairs.items) × (r.size ≤ PAIR_MAX * length r.pairs.items) };
}

impl SortedRun {
    /// A run of no pairs.
    pub fn new(alloc: Global) -> SortedRun
        ensures { result ≡ [] }
    {
        SortedRun {
            pairs: Vec::new(alloc),
            size: 0,
        }
    }

    /// One pair more, whose key is above all others.
    pub fn push(&mut self, pair: Pair) -> Result<(), NoMemory>
        requires above { AreBelow self.old pair.key }
        ensures ok { OnOk result (self.new ≡ self.old ++ pair ∷ []) }
        ensures refused { OnErr result (self.new ≡ self.old) }
    {
        let more = size(&pair.key, &pair.change) as u128;
        self.pairs.push(pair)?;
        self.size += more;
        Ok(())
    }

    /// How many pairs it has.
    pub fn len(&self) -> usize
        ensures { result ≡ length self.now }
    {
        self.pairs.len()
    }

    /// The pair at a place.
    pub fn at(&self, place: usize) -> &Pair
        requires { place < length self.now }
        ensures { slice_get self.now place ≡ Some result.now }
    {
        &self.pairs[place]
    }

    /// The change at a key, where the run has the key, as `find_in` finds it.
    pub fn find<L: Ledger>(&self, key: &[u8], steps: &mut Steps<L>) -> Option<&Change>
        ensures change { LendsChange result (change_at self.now key.now) }
        ensures cost { (n : ℕ) → length self.now < 2 ^ n → steps.new ≤ steps.old + n + 1 }
        ensures some { 0 < length self.now → steps.old < steps.new }
    {
        find_in(self.as_slice(), key, steps)
    }

    /// All its pairs.
    pub fn as_slice(&self) -> &[Pair]
        ensures pairs { result.now ≡ self.now }
        ensures rises { IsRun self.now }
    {
        self.pairs.as_slice()
    }

    /// The sizes of all pairs together, in bytes. It was summed up at each push.
    pub fn size(&self) -> u128
        ensures { result ≡ sizes self.now }
    {
        self.size
    }

    /// The run of these pairs, which takes no memory.
    pub fn of(pairs: Vec<Pair>) -> SortedRun
        requires rises { IsRun pairs.items }
        ensures { result ≡ pairs.items }
    {
        let mut sum: u128 = 0;
        for pair in pairs.iter() {
            sum += size(&pair.key, &pair.change) as u128;
        }
        SortedRun { pairs, size: sum }
    }

    /// Its pairs, which takes no memory.
    pub fn into_pairs(self) -> Vec<Pair>
        ensures pairs { result.items ≡ self }
        ensures rises { IsRun self }
    {
        self.pairs
    }

    /// An equal run.
    pub fn try_copy(&self, alloc: Global) -> Result<SortedRun, NoMemory>
        ensures { IfOk result (λ run. run ≡ self.now) }
    {
        let mut pairs = Vec::with_capacity(alloc, self.pairs.len())?;
        for pair in self.pairs.iter() {
            pairs.push(pair.try_copy(alloc)?)?;
        }
        Ok(SortedRun {
            pairs,
            size: self.size,
        })
    }
}
