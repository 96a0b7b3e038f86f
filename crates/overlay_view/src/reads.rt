//! The row where a cursor stands, lent or copied.
ghost use Rattle.std.specs.Prelude.{◌≡◌, ◌<◌, map, length, slice_get, Some, IfOk};
ghost use Rattle.remix_seek.specs.Versions.{run_at};
ghost use Rattle.overlay_view.specs.Cursors.{LendsPair, CopiesPair};
ghost use Rattle.overlay_view.specs.Older.{HasPair, pair_of};

use crate::lent_row::LentRow;
use rdb_base::{Change, NoMemory, Pair, Row, Steps};
use remix_seek::Runs;
use remix_view::Spot;
use std::alloc::Global;
use std::sync::ledger::Ledger;

/// The run that has the pair of a spot.
pub(crate) fn run_with<T: Runs>(runs: &[T], spot: Spot) -> &T
    requires { HasPair (map T.run runs.now) spot }
    ensures run { T.run result.now ≡ run_at (map T.run runs.now) spot.run }
    ensures place { spot.place < length (T.run result.now) }
{
    &runs[spot.run as usize]
}

/// A newer pair as a row, lent. None at a deletion.
pub(crate) fn lent_newer(pair: &Pair) -> Option<LentRow<'_>>
    ensures { LendsPair (Some pair.now) result }
{
    match &pair.change {
        Change::Put(value) => Some(LentRow {
            key: pair.key.as_bytes(),
            value: value.as_bytes(),
        }),
        Change::Del => None,
    }
}

/// An older version as a row, lent. None at a deletion.
pub(crate) fn lent_older<'a, T: Runs, L: Ledger>(
    runs: &'a [T],
    spot: Spot,
    steps: &mut Steps<L>,
) -> Option<LentRow<'a>>
    requires { HasPair (map T.run runs.now) spot }
    ensures { LendsPair (pair_of (map T.run runs.now) spot) result }
{
    let run = run_with(runs, spot);
    match run.lent_value(spot.place) {
        None => None,
        Some(value) => Some(LentRow {
            key: run.lent_key(spot.place, steps),
            value,
        }),
    }
}

/// A newer pair as a row of its own. None at a deletion.
pub(crate) fn copied_newer(alloc: Global, pair: &Pair) -> Result<Option<Row>, NoMemory>
    ensures { IfOk result (λ row. CopiesPair (Some pair.now) row) }
{
    match &pair.change {
        Change::Put(value) => Ok(Some(Row {
            key: pair.key.try_copy(alloc)?,
            value: value.try_copy(alloc)?,
        })),
        Change::Del => Ok(None),
    }
}

/// An older version as a row of its own. None at a deletion.
pub(crate) fn copied_older<T: Runs, L: Ledger>(
    alloc: Global,
    runs: &[T],
    spot: Spot,
    steps: &mut Steps<L>,
) -> Result<Option<Row>, NoMemory>
    requires { HasPair (map T.run runs.now) spot }
    ensures { IfOk result (λ row. CopiesPair (pair_of (map T.run runs.now) spot) row) }
{
    let run = run_with(runs, spot);
    match run.change_at(alloc, spot.place)? {
        Change::Put(value) => Ok(Some(Row {
            key: run.key_at(alloc, spot.place, steps)?,
            value,
        })),
        Change::Del => Ok(None),
    }
}
