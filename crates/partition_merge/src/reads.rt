//! The pair of an origin: a copy of it, and its size.
ghost use Rattle.std.specs.Prelude.{◌≡◌, ◌<◌, map, length, slice_get, Some, IfOk};
ghost use Rattle.remix_seek.specs.Versions.{run_at};
ghost use Rattle.partition_merge.specs.Merging.{IsThere, pair_from, size_from, within_u64};

use crate::origin::Origin;
use rdb_base::{NoMemory, Pair, Steps, size};
use remix_seek::Runs;
use std::alloc::Global;
use std::sync::ledger::Ledger;

/// How many bytes a pair has beside its key and its value.
const LENGTHS: u64 = 6;

/// The run that has a pair at a place.
pub(crate) fn run_with<T: Runs>(runs: &[T], run: u8, place: u32) -> &T
    requires { IsThere (slice_get (run_at (map T.run runs.now) run) place) }
    ensures run { T.run result.now ≡ run_at (map T.run runs.now) run }
    ensures place { place < length (T.run result.now) }
{
    &runs[run as usize]
}

/// The pair at a place of the new side.
fn new_at(newer: &[Pair], place: usize) -> &Pair
    requires { IsThere (slice_get newer.now place) }
    ensures { slice_get newer.now place ≡ Some result.now }
{
    &newer[place]
}

/// A copy of the pair of an origin.
pub(crate) fn copied<T: Runs, L: Ledger>(
    alloc: Global,
    runs: &[T],
    newer: &[Pair],
    origin: Origin,
    steps: &mut Steps<L>,
) -> Result<Pair, NoMemory>
    requires { IsThere (pair_from (map T.run runs.now) newer.now origin) }
    ensures { IfOk result (λ pair. pair_from (map T.run runs.now) newer.now origin ≡ Some pair) }
{
    match origin {
        Origin::Old { run, place } => copied_old(alloc, run_with(runs, run, place), place, steps),
        Origin::New { place } => new_at(newer, place).try_copy(alloc),
    }
}

/// A copy of the pair at a place of a run.
fn copied_old<T: Runs, L: Ledger>(
    alloc: Global,
    run: &T,
    place: u32,
    steps: &mut Steps<L>,
) -> Result<Pair, NoMemory>
    requires { place < length (T.run run.now) }
    ensures { IfOk result (λ pair. slice_get (T.run run.now) place ≡ Some pair) }
{
    let key = run.key_at(alloc, place, steps)?;
    let change = run.change_at(alloc, place)?;
    Ok(Pair { key, change })
}

/// The size of the pair of an origin, in bytes. It stands still at the greatest number. Nothing is copied.
pub(crate) fn size_of<T: Runs, L: Ledger>(
    runs: &[T],
    newer: &[Pair],
    origin: Origin,
    steps: &mut Steps<L>,
) -> u64
    requires { IsThere (pair_from (map T.run runs.now) newer.now origin) }
    ensures { result ≡ within_u64 (size_from (pair_from (map T.run runs.now) newer.now origin)) }
{
    match origin {
        Origin::Old { run, place } => size_of_old(run_with(runs, run, place), place, steps),
        Origin::New { place } => {
            let pair = new_at(newer, place);
            size(&pair.key, &pair.change)
        }
    }
}

/// The size of the pair at a place of a run.
fn size_of_old<T: Runs, L: Ledger>(run: &T, place: u32, steps: &mut Steps<L>) -> u64
    requires { place < length (T.run run.now) }
    ensures { result ≡ within_u64 (size_from (slice_get (T.run run.now) place)) }
{
    let head = LENGTHS.saturating_add(run.lent_key(place, steps).len() as u64);
    match run.lent_value(place) {
        None => head,
        Some(value) => head.saturating_add(value.len() as u64),
    }
}
