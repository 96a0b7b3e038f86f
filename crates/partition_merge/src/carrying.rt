ghost use Rattle.std.specs.Prelude.{◌≡◌, ◌<◌, ◌∷◌, [], map, length, IfOk};
ghost use Rattle.rdb_base.specs.Levels.{merged};
ghost use Rattle.rdb_base.specs.Runs.{IsRun};
ghost use Rattle.remix_seek.specs.Indexes.{Indexes};
ghost use Rattle.partition_plan.specs.declared.decision.Decision.TheVariants.{Minor};
ghost use Rattle.partition_plan.specs.declared.limits.TheConstants.{RUNS_MAX};
ghost use Rattle.partition_plan.specs.Pieces.{pieces_of, pieces_from, put_pairs, split_parts};
ghost use Rattle.partition_merge.specs.Pieces.{KeepsRows};

use crate::cut::{Cut, run_of};
use crate::merging::{first_place, next_row};
use crate::piece::Piece;
use crate::reads::copied;
use partition_plan::Decision;
use partition_set::Partition;
use rdb_base::{NoMemory, Pair, SortedRun, Steps};
use remix_seek::{Remix, Runs};
use std::alloc::Global;
use std::marker::Brand;
use std::sync::ledger::{Blank, Ledger};

/// Carries a decision out: the pieces that new pairs, the newest change of each key, make of a partition.
///
/// - Abort leaves the partition as it is, and the new pairs out.
/// - Minor makes the new pairs a run above the old ones. There has to be a new pair, and room for a run more.
/// - Major makes one run of the rows of new and old pairs, without older versions and deletions, or none of no row.
/// - Split cuts the same rows into parts of at most `PART_MAX` bytes. The first has the bound of the partition, each
///   further one its own first key.
pub fn carry_out<T: Runs>(
    alloc: Global,
    part: &Partition<T>,
    new: &SortedRun,
    decision: Decision,
) -> Result<Vec<Piece>, NoMemory>
    requires index { Indexes (map T.run part.now.runs) part.now.view part.now.anchors }
    requires minor { decision ≡ Minor → (0 < length new.now) × (length part.now.runs < RUNS_MAX) }
    ensures pieces { IfOk result (λ pieces.
        pieces.items ≡ pieces_of decision part.now.low (map T.run part.now.runs) new.now) }
    ensures kept { IfOk result (λ pieces.
        KeepsRows decision part.now.low (map T.run part.now.runs) new.now pieces.items) }
{
    carry_alone::<T, Brand>(alloc, part, new, decision, Blank::new(1))
}

/// A decision carried out, with steps that nobody counts.
fn carry_alone<T: Runs, L: Ledger>(
    alloc: Global,
    part: &Partition<T>,
    new: &SortedRun,
    decision: Decision,
    blank: Blank,
) -> Result<Vec<Piece>, NoMemory>
    requires index { Indexes (map T.run part.now.runs) part.now.view part.now.anchors }
    requires name { blank.name ≡ L.name }
    requires parts { blank.parts ≡ L.parts }
    requires some { 0 < blank.parts }
    ensures pieces { IfOk result (λ pieces.
        pieces.items ≡ pieces_of decision part.now.low (map T.run part.now.runs) new.now) }
    ensures rises { IsRun new.now }
{
    let mut steps = Steps::<L>::begin(blank);
    let low = part.low.as_slice();
    let runs = part.runs.as_slice();
    let newer = new.as_slice();
    match decision {
        Decision::Abort => one_piece(alloc, low, true, None),
        Decision::Minor => one_piece(alloc, low, true, Some(new.try_copy(alloc)?)),
        Decision::Major => {
            let run = merge_rows(alloc, runs, &part.remix, newer, &mut steps)?;
            one_piece(alloc, low, false, run_of(run))
        }
        Decision::Split => split_rows(alloc, low, runs, &part.remix, newer, &mut steps),
    }
}

/// One piece with this bound.
fn one_piece(
    alloc: Global,
    low: &[u8],
    keeps_old: bool,
    run: Option<SortedRun>,
) -> Result<Vec<Piece>, NoMemory>
    ensures { IfOk result (λ pieces. pieces.items ≡ record { low = low.now; keeps_old = keeps_old; run = run } ∷ []) }
{
    let low = Vec::from_slice(alloc, low)?;
    let mut pieces = Vec::with_capacity(alloc, 1)?;
    pieces.push(Piece {
        low,
        keeps_old,
        run,
    })?;
    Ok(pieces)
}

/// The rows of new pairs above old runs, as one run.
fn merge_rows<T: Runs, L: Ledger>(
    alloc: Global,
    runs: &[T],
    remix: &Remix,
    newer: &[Pair],
    steps: &mut Steps<L>,
) -> Result<SortedRun, NoMemory>
    requires index { Indexes (map T.run runs.now) remix.now.view remix.now.anchors }
    requires rises { IsRun newer.now }
    ensures { IfOk result (λ run. run ≡ put_pairs (merged (newer.now ∷ map T.run runs.now))) }
{
    let mut place = first_place(runs, remix, newer);
    let mut run = SortedRun::new(alloc);
    'rows: while let Some(origin) = next_row(runs, &remix.view, newer, &mut place, steps) {
        run.push(copied(alloc, runs, newer, origin, steps)?)?;
    }
    Ok(run)
}

/// The rows of new pairs above old runs, cut into parts.
fn split_rows<T: Runs, L: Ledger>(
    alloc: Global,
    low: &[u8],
    runs: &[T],
    remix: &Remix,
    newer: &[Pair],
    steps: &mut Steps<L>,
) -> Result<Vec<Piece>, NoMemory>
    requires index { Indexes (map T.run runs.now) remix.now.view remix.now.anchors }
    requires rises { IsRun newer.now }
    ensures { IfOk result (λ pieces. pieces.items ≡ pieces_from low.now (split_parts (newer.now ∷ map T.run runs.now))) }
{
    let mut place = first_place(runs, remix, newer);
    let mut cut = Cut::begin(alloc, low)?;
    'rows: while let Some(origin) = next_row(runs, &remix.view, newer, &mut place, steps) {
        cut.add(alloc, copied(alloc, runs, newer, origin, steps)?)?;
    }
    cut.end()
}
