ghost use Rattle.std.specs.Prelude.{◌≡◌, ◌+◌, ◌<◌, ℕ, List, length, Option, IfOk};
ghost use Rattle.rdb_base.specs.Runs.{IsRun, sizes};
ghost use Rattle.rdb_base.specs.declared.pair.Pair.{Pair};
ghost use Rattle.remix_seek.specs.Reads.{KeyAt, ValueAt, ChangeAt};

use rdb_base::{Change, Key, NoMemory, Steps};
use std::alloc::Global;
use std::sync::ledger::Ledger;

/// A sorted run of pairs, read by place. Each call that gives a key is one step, and there is no other way to a key.
pub trait Runs {
    /// The run that it stands for.
    ghost run: { Self → List Pair };

    /// How many pairs it has. Their keys rise with the place.
    fn len(&self) -> u32
        ensures length { result ≡ length (run self.now) }
        ensures rises { IsRun (run self.now) };

    /// The sizes of its pairs together, in bytes.
    fn size(&self) -> u128
        ensures { result ≡ sizes (run self.now) };

    /// The key at a place, lent. It is one step.
    fn lent_key<L: Ledger>(&self, place: u32, steps: &mut Steps<L>) -> &[u8]
        requires { place < length (run self.now) }
        ensures key { KeyAt (run self.now) place result.now }
        ensures cost { steps.new ≡ steps.old + 1 };

    /// The value at a place, lent. None at a deletion.
    fn lent_value(&self, place: u32) -> Option<&[u8]>
        requires { place < length (run self.now) }
        ensures { ValueAt (run self.now) place result };

    /// A copy of the key at a place. It is one step, also if it runs out of memory.
    fn key_at<L: Ledger>(
        &self,
        alloc: Global,
        place: u32,
        steps: &mut Steps<L>,
    ) -> Result<Key, NoMemory>
        requires { place < length (run self.now) }
        ensures key { IfOk result (λ key. KeyAt (run self.now) place key) }
        ensures cost { steps.new ≡ steps.old + 1 };

    /// A copy of the change at a place.
    fn change_at(&self, alloc: Global, place: u32) -> Result<Change, NoMemory>
        requires { place < length (run self.now) }
        ensures { IfOk result (λ change. ChangeAt (run self.now) place change) };
}
