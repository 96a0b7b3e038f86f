ghost use Rattle.std.specs.Prelude.{◌≡◌, ◌^◌, ◌-◌, [], None, Some, min, slice_index, IsSome};
ghost use Rattle.std.specs.Option.{ForSome};
ghost use Rattle.std.proofs.Props.{props};
ghost use Rattle.fault_count.specs.Counts.{one_more};
ghost use Rattle.host_model.specs.Lent.{NoneFell, rise_of, risen, total_of, AllFit, AreWithin};

use crate::lendable::Lendable;
use fault_count::FaultCount;

/// A thing that is handed out and taken back, and how often it failed. It has `N` counts of faults.
#[derive(Drop)]
pub struct Lending<T: Lendable + Drop, const N: usize> {
    pub thing: Option<T>,
    /// Its own counts, when it was handed out or taken back last.
    pub counts: [u64; N],
    /// How often it failed in all, never less than one of its own counts.
    pub faults: FaultCount,
    ghost seen: { ForSome thing (λ t. T.counts t ≡ counts) },
    ghost within: { AreWithin faults counts } by { Prim.hlevel props },
}

/// The count at a place, or 0 past the end.
fn count_at(counts: &[u64], place: usize) -> u64
    ensures { result ≡ slice_index counts.now place }
{
    match counts.get(place) {
        Some(count) => *count,
        None => 0,
    }
}

/// How much counts rose in all, or the last value if it is more. A count that was not there before
/// rose from nothing.
fn rise_between(before: &[u64], now: &[u64]) -> u64
    requires { NoneFell before.now now.now }
    ensures rise { result ≡ min (rise_of before.now now.now) (2 ^ 64 - 1) }
    ensures fit { AllFit now.now }
{
    let mut rise: u64 = 0;
    'counts: for (i, latest) in now.iter().enumerate() {
        rise = rise.saturating_add(latest - count_at(before, i));
    }
    rise
}

impl<T: Lendable + Drop, const N: usize> Lending<T, N> {
    /// A thing that is at home, with its own counts of faults.
    pub fn new(thing: T, counts: [u64; N]) -> Lending<T, N>
        requires { T.counts thing ≡ counts }
        ensures home { result.thing ≡ Some thing }
        ensures counts { result.counts ≡ counts.entry }
        ensures faults { result.faults ≡ total_of counts.entry }
    {
        let mut faults = FaultCount::new();
        faults.rise_by(rise_between(&[], &counts));
        Lending {
            thing: Some(thing),
            counts,
            faults,
        }
    }

    /// Hands the thing out.
    pub fn lend(&mut self) -> T
        requires { IsSome self.old.thing }
        ensures thing { self.old.thing ≡ Some result }
        ensures out { self.new.thing ≡ None }
        ensures counts { self.new.counts ≡ T.counts result }
        ensures within { AreWithin self.old.faults (T.counts result) }
        ensures faults { self.new.faults ≡ self.old.faults }
    {
        match self.thing.take() {
            Some(thing) => thing,
            None => unreachable!(),
        }
    }

    /// Takes the thing back, with its own counts of faults.
    pub fn take_back(&mut self, thing: T, counts: [u64; N])
        requires out { self.old.thing ≡ None }
        requires risen { NoneFell self.old.counts counts }
        requires counts { T.counts thing ≡ counts }
        ensures home { self.new.thing ≡ Some thing }
        ensures faults { self.new.faults ≡ risen self.old.faults self.old.counts counts.entry }
    {
        self.faults.rise_by(rise_between(&self.counts, &counts));
        self.counts = counts;
        self.thing = Some(thing);
    }

    /// Puts another thing in the place of the one at home, with its own counts of faults.
    pub fn replace(&mut self, thing: T, counts: [u64; N])
        requires counts { T.counts thing ≡ counts }
        requires within { AreWithin self.old.faults counts }
        ensures home { self.new.thing ≡ Some thing }
        ensures counts { self.new.counts ≡ counts.entry }
        ensures faults { self.new.faults ≡ self.old.faults }
    {
        self.counts = counts;
        self.thing = Some(thing);
    }

    /// Counts one failure of what lends the thing.
    pub fn fail(&mut self)
        ensures thing { self.new.thing ≡ self.old.thing }
        ensures counts { self.new.counts ≡ self.old.counts }
        ensures faults { self.new.faults ≡ one_more self.old.faults }
    {
        self.faults.rise();
    }
}
