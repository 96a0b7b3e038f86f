ghost use Rattle.std.specs.Prelude.{◌≡◌, ◌+◌, ◌<◌, IfOk, OnErr, length, map, slice_get};
ghost use Rattle.rdb_base.specs.Runs.{change_at};
ghost use Rattle.rdb_base.specs.Levels.{level_of};
ghost use Rattle.remix_seek.specs.Indexes.{Indexes};
ghost use Rattle.remix_seek.specs.Reads.{ChangeAt};
ghost use Rattle.remix_seek.specs.Versions.{run_at};
ghost use Rattle.partition_set.specs.Lookups.{change_in, change_of_pair, HasValue, LookupCost};

use crate::partition::Partition;
use rdb_base::{Change, NoMemory, Steps, compare_bytes};
use remix_seek::Runs;
use remix_view::Walk;
use std::alloc::Global;
use std::sync::ledger::Ledger;

/// The change of a key in a partition: one search, and one look at what it met. Only a value takes memory.
pub(crate) fn change_of<T: Runs, L: Ledger>(
    alloc: Global,
    part: &Partition<T>,
    key: &[u8],
    steps: &mut Steps<L>,
) -> Result<Option<Change>, NoMemory>
    requires { Indexes (map T.run part.now.runs) part.now.view part.now.anchors }
    ensures change { IfOk result (λ found. found ≡ change_at (level_of (map T.run part.now.runs)) key.now) }
    ensures memory { OnErr result (HasValue (change_at (level_of (map T.run part.now.runs)) key.now)) }
    ensures cost { LookupCost part.now.view steps.old steps.new }
    ensures some { 0 < length part.now.view.segments → steps.old < steps.new }
{
    let runs = part.runs.as_slice();
    let (segment, place) = part.remix.seek(runs, key, steps)?;
    match Walk::at(segment, place).next(&part.remix.view) {
        None => Ok(None),
        Some(spot) => change_at_place(alloc, runs, spot.run, spot.place, key, steps),
    }
}

/// The change at a place of a run, where it has the key.
fn change_at_place<T: Runs, L: Ledger>(
    alloc: Global,
    runs: &[T],
    run: u8,
    place: u32,
    key: &[u8],
    steps: &mut Steps<L>,
) -> Result<Option<Change>, NoMemory>
    requires run { run < length runs.now }
    requires place { place < length (run_at (map T.run runs.now) run) }
    ensures change { IfOk result (λ found. found ≡ change_in (map T.run runs.now) run place key.now) }
    ensures memory { OnErr result (HasValue (change_in (map T.run runs.now) run place key.now)) }
    ensures cost { steps.new ≡ steps.old + 1 }
{
    let run = &runs[run as usize];
    if compare_bytes(run.lent_key(place, steps), key).is_eq() {
        Ok(Some(copied_change(alloc, run, place)?))
    } else {
        Ok(None)
    }
}

/// A copy of the change at a place of a run. A deletion takes no memory.
fn copied_change<T: Runs>(alloc: Global, run: &T, place: u32) -> Result<Change, NoMemory>
    requires { place < length (T.run run.now) }
    ensures change { IfOk result (λ change. ChangeAt (T.run run.now) place change) }
    ensures memory { OnErr result (HasValue (change_of_pair (slice_get (T.run run.now) place))) }
{
    match run.lent_value(place) {
        None => Ok(Change::Del),
        Some(_value) => run.change_at(alloc, place),
    }
}
