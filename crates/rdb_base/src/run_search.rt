//! Searches by halves in a run.
ghost use Rattle.std.specs.Prelude.{◌≡◌, ℕ, ◌+◌, ◌^◌, ◌<◌, ◌≤◌, length};
ghost use Rattle.rdb_base.specs.Runs.{IsRun, change_at};
ghost use Rattle.rdb_base.specs.Halvings.{IsLogarithmic};
ghost use Rattle.rdb_base.specs.Searches.{IsPlaceOf, LendsChange};

use crate::byte_order::compare_bytes;
use crate::change::Change;
use crate::pair::Pair;
use crate::steps::Steps;
use std::sync::ledger::Ledger;

/// The first place whose key is not below this one, or how many pairs there are.
///
/// Each key that is read is a step. They are at most the least number whose power of two is above the number of pairs,
/// and at least one where there is a pair.
pub fn place_of<L: Ledger>(run: &[Pair], key: &[u8], steps: &mut Steps<L>) -> usize
    requires rises { IsRun run.now }
    ensures place { IsPlaceOf run.now key.now result }
    ensures cost { IsLogarithmic (length run.now) steps.old steps.new }
    ensures some { 0 < length run.now → steps.old < steps.new }
{
    let mut low = 0;
    let mut high = run.len();
    'halves: while low < high {
        let middle = low + (high - low) / 2;
        steps.tick();
        if compare_bytes(run[middle].key.as_bytes(), key).is_lt() {
            low = middle + 1;
        } else {
            high = middle;
        }
    }
    low
}

/// The change at a key, where the run has the key.
///
/// Each key that is read is a step: those for the key's place, and the one that stands there.
pub fn find_in<'a, L: Ledger>(
    run: &'a [Pair],
    key: &[u8],
    steps: &mut Steps<L>,
) -> Option<&'a Change>
    requires rises { IsRun run.now }
    ensures change { LendsChange result (change_at run.now key.now) }
    ensures cost { (n : ℕ) → length run.now < 2 ^ n → steps.new ≤ steps.old + n + 1 }
    ensures some { 0 < length run.now → steps.old < steps.new }
{
    let place = place_of(run, key, steps);
    if place == run.len() {
        return None;
    }
    let pair = &run[place];
    steps.tick();
    if compare_bytes(pair.key.as_bytes(), key).is_eq() {
        Some(change_of(pair))
    } else {
        None
    }
}

/// What an update did at the pair's key.
fn change_of(pair: &Pair) -> &Change
    ensures { result.now ≡ pair.now.change }
{
    &pair.change
}
