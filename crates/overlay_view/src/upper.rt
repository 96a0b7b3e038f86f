ghost use Rattle.std.specs.Prelude.{◌≡◌, ◌+◌, ◌<◌, ◌≤◌, length, slice_get, Some, IfOk};
ghost use Rattle.overlay_view.specs.Cursors.{is_deleted};
ghost use Rattle.overlay_view.specs.Placements.{IsPlaced, PlaceCost};

use crate::placement::Placement;
use crate::placing::{forms_of, placements_of};
use partition_set::PartitionSet;
use rdb_base::{Change, NoMemory, Pair, SortedRun, Steps};
use remix_seek::Runs;
use std::alloc::Global;
use std::marker::Model;
use std::sync::ledger::Ledger;

/// Newer rows above a set, each with its place among the versions of the set. Deletions are kept.
#[derive(Drop)]
pub struct Upper {
    rows: SortedRun,
    placements: Vec<Placement>,
}

impl Model for Upper {
    ghost use Rattle.std.specs.Prelude.{◌≡◌, length};
    ghost use Rattle.overlay_view.specs.Placements.{UpperState};

    ghost Value = { UpperState };

    ghost view = { λ u. record { rows = u.rows; placements = u.placements.items } };

    ghost invariant = { λ u. length u.placements.items ≡ length u.rows };
}

impl Upper {
    /// Places each row of the run among the versions of the set. A key or an anchor that is read is one step: for each
    /// row those of a seek in its partition, and one more.
    pub fn place<T: Runs + Drop, L: Ledger>(
        alloc: Global,
        run: SortedRun,
        parts: &PartitionSet<T>,
        steps: &mut Steps<L>,
    ) -> Result<Upper, NoMemory>
        ensures rows { IfOk result (λ upper. upper.rows ≡ run) }
        ensures placed { IfOk result (λ upper. IsPlaced T.run parts.now upper) }
        ensures cost { PlaceCost parts.now run steps.old steps.new }
    {
        // Its contract tells that each view is formed.
        forms_of(parts);
        let placements = placements_of(alloc, run.as_slice(), parts, steps)?;
        Ok(Upper {
            rows: run,
            placements,
        })
    }

    /// How many rows there are.
    pub fn len(&self) -> usize
        ensures rows { result ≡ length self.now.rows }
        ensures placements { result ≡ length self.now.placements }
    {
        self.rows.len()
    }

    /// All its rows.
    pub(crate) fn rows(&self) -> &[Pair]
        ensures { result.now ≡ self.now.rows }
    {
        self.rows.as_slice()
    }

    /// Where a row stands.
    pub(crate) fn placement(&self, at: usize) -> Placement
        requires { at < length self.now.placements }
        ensures { slice_get self.now.placements at ≡ Some result }
    {
        self.placements[at]
    }

    /// A row.
    pub(crate) fn row(&self, at: usize) -> &Pair
        requires { at < length self.now.rows }
        ensures { slice_get self.now.rows at ≡ Some result.now }
    {
        self.rows.at(at)
    }

    /// The place after a row.
    pub(crate) fn after(&self, at: usize) -> usize
        requires { at < length self.now.rows }
        ensures { result ≡ at + 1 }
    {
        // Its contract tells that the rows are fewer than a number can count.
        let _rows = self.rows.len();
        at + 1
    }

    /// Whether there is a row at this place, and it is a deletion.
    pub(crate) fn is_deleted(&self, at: usize) -> bool
        ensures { result ≡ is_deleted (slice_get self.now.rows at) }
    {
        if at < self.rows.len() {
            is_deletion(self.rows.at(at))
        } else {
            false
        }
    }
}

/// Whether a pair is a deletion.
fn is_deletion(pair: &Pair) -> bool
    ensures { result ≡ is_deleted (Some pair.now) }
{
    match pair.change {
        Change::Put(_) => false,
        Change::Del => true,
    }
}
