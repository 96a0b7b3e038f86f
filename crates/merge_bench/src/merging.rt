//! Major compactions of one partition.
ghost use Rattle.std.specs.Prelude.{map};
ghost use Rattle.remix_seek.specs.Indexes.{Indexes};

use crate::load::Merges;
use crate::made::{made_part, new_run};
use partition_merge::{Piece, carry_out};
use partition_plan::Decision;
use partition_set::Partition;
use rdb_base::{SortedRun, Steps};
use remix_seek::RunInMemory;
use std::alloc::Global;
use std::sync::ledger::Ledger;

/// The rows of a piece, and their sizes.
fn sum_of_piece(piece: &Piece) -> u64 {
    match &piece.run {
        None => 0,
        Some(run) => (run.len() as u64).wrapping_add(run.size().min(u128::from(u64::MAX)) as u64),
    }
}

fn sum_of_pieces(pieces: &[Piece]) -> u64 {
    let mut sum: u64 = 0;
    for piece in pieces {
        sum = sum.wrapping_add(sum_of_piece(piece));
    }
    sum
}

fn merged(alloc: Global, part: &Partition<RunInMemory>, new: &SortedRun) -> Option<Vec<Piece>>
    requires { Indexes (map (λ run. run) part.now.runs) part.now.view part.now.anchors }
{
    carry_out(alloc, part, new, Decision::Major).ok()
}

/// Merges so often, and sums up the rows and their sizes.
fn sum_of_merges(
    alloc: Global,
    part: &Partition<RunInMemory>,
    new: &SortedRun,
    times: u32,
) -> Option<u64>
    requires { Indexes (map (λ run. run) part.now.runs) part.now.view part.now.anchors }
{
    let mut sum: u64 = 0;
    for _time in 0..times {
        let pieces = merged(alloc, part, new)?;
        sum = sum.wrapping_add(sum_of_pieces(pieces.as_slice()));
    }
    Some(sum)
}

/// So too, and keeps all pieces to the end.
fn sum_of_held(
    alloc: Global,
    part: &Partition<RunInMemory>,
    new: &SortedRun,
    times: u32,
) -> Option<u64>
    requires { Indexes (map (λ run. run) part.now.runs) part.now.view part.now.anchors }
{
    let mut held = Vec::new(alloc);
    for _time in 0..times {
        held.push(merged(alloc, part, new)?).ok()?;
    }
    let mut sum: u64 = 0;
    for pieces in held.as_slice() {
        sum = sum.wrapping_add(sum_of_pieces(pieces.as_slice()));
    }
    Some(sum)
}

/// The sum of all merges. None if it runs out of memory.
pub(crate) fn sum_of<L: Ledger>(
    alloc: Global,
    load: &Merges,
    hold: bool,
    steps: &mut Steps<L>,
) -> Option<u64> {
    let part = made_part(alloc, load, steps)?;
    let new = new_run(alloc, load, steps)?;
    if hold {
        return sum_of_held(alloc, &part, &new, load.times);
    }
    sum_of_merges(alloc, &part, &new, load.times)
}
