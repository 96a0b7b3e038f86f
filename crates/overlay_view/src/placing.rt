//! How newer rows are placed: one seek a row, and a look at what it met.
ghost use Rattle.std.specs.Prelude.{◌≡◌, ◌+◌, ◌<◌, ◌≤◌, length, map, slice_get, Some, IfOk};
ghost use Rattle.std.specs.List.{AllByRecursion};
ghost use Rattle.remix_view.specs.Views.{IsFormed};
ghost use Rattle.partition_set.specs.Partitions.{IsSet};
ghost use Rattle.overlay_view.specs.Placements.{IsPlacedAt, ArePlaced, KeyCost, PlaceCost, shows_key};
ghost use Rattle.overlay_view.specs.Older.{HasPair};

use crate::placement::Placement;
use crate::reads::run_with;
use crate::set_place::SetPlace;
use partition_set::PartitionSet;
use rdb_base::{NoMemory, Pair, Steps, compare_bytes};
use remix_seek::Runs;
use remix_view::{Spot, Walk};
use std::alloc::Global;
use std::sync::ledger::Ledger;

/// That each view of a set is formed, and that it is a set. Nothing is read.
pub(crate) fn forms_of<T: Runs + Drop>(parts: &PartitionSet<T>)
    ensures set { IsSet T.run parts.now }
    ensures formed { AllByRecursion (λ part. IsFormed part.view) parts.now }
{
    let _part = parts.of_key(&[]);
    let mut number: usize = 0;
    'parts: while number < parts.count() {
        let _segments = parts.part(number).remix.view.segments();
        number += 1;
    }
}

/// Where each of these rows stands.
pub(crate) fn placements_of<T: Runs + Drop, L: Ledger>(
    alloc: Global,
    rows: &[Pair],
    parts: &PartitionSet<T>,
    steps: &mut Steps<L>,
) -> Result<Vec<Placement>, NoMemory>
    ensures placed { IfOk result (λ placements. ArePlaced T.run parts.now rows.now placements.items) }
    ensures cost { PlaceCost parts.now rows.now steps.old steps.new }
{
    let mut placements = Vec::with_capacity(alloc, rows.len())?;
    'rows: for row in rows {
        placements.push(placement_of(row.key.as_bytes(), parts, steps)?)?;
    }
    Ok(placements)
}

/// Where a key stands.
fn placement_of<T: Runs + Drop, L: Ledger>(
    key: &[u8],
    parts: &PartitionSet<T>,
    steps: &mut Steps<L>,
) -> Result<Placement, NoMemory>
    ensures placed { IfOk result (λ placement. IsPlacedAt T.run parts.now key.now placement) }
    ensures cost { KeyCost parts.now key.now steps.old steps.new }
{
    let number = parts.of_key(key);
    let part = parts.part(number);
    let runs = part.runs.as_slice();
    let (segment, place) = part.remix.seek(runs, key, steps)?;
    let hides = match Walk::at(segment, place).next(&part.remix.view) {
        None => false,
        Some(spot) => is_shown(runs, spot, key, steps),
    };
    Ok(Placement {
        place: SetPlace {
            part: number,
            segment,
            place,
        },
        hides,
    })
}

/// Whether a version is no deletion and has this key. Of a deletion no key is read.
fn is_shown<T: Runs, L: Ledger>(runs: &[T], spot: Spot, key: &[u8], steps: &mut Steps<L>) -> bool
    requires { HasPair (map T.run runs.now) spot }
    ensures shown { result ≡ shows_key (map T.run runs.now) spot key.now }
    ensures cost { steps.new ≤ steps.old + 1 }
{
    if spot.del {
        return false;
    }
    let run = run_with(runs, spot);
    compare_bytes(run.lent_key(spot.place, steps), key).is_eq()
}
