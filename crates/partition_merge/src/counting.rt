//! The sizes that a merge would leave, without a copy.
ghost use Rattle.std.specs.Prelude.{◌≡◌, ◌<◌, ◌∷◌, [], map, length};
ghost use Rattle.rdb_base.specs.Runs.{IsRun};
ghost use Rattle.rdb_base.specs.Levels.{merged};
ghost use Rattle.rdb_base.specs.PageLaws.{rows_size};
ghost use Rattle.remix_seek.specs.Indexes.{Indexes};
ghost use Rattle.partition_plan.specs.Pieces.{split_parts};
ghost use Rattle.partition_merge.specs.Merging.{within_u64};
ghost use Rattle.partition_merge.specs.Counting.{IsCount, within_u32};

use crate::counted::Counted;
use crate::merging::{first_place, next_row};
use crate::reads::size_of;
use partition_set::Partition;
use rdb_base::{Pair, SortedRun, Steps};
use remix_seek::{Remix, Runs};
use std::marker::Brand;
use std::sync::ledger::{Blank, Ledger};

/// The sizes of the rows that a major compaction would leave, in bytes, and how many parts a split would make of them.
/// Each stands still at the greatest number of its type. It walks as `carry_out` does, and copies nothing.
pub fn count_merged<T: Runs>(part: &Partition<T>, new: &SortedRun) -> (u64, u32)
    requires { Indexes (map T.run part.now.runs) part.now.view part.now.anchors }
    ensures size { result.0 ≡ within_u64 (rows_size (merged (new.now ∷ map T.run part.now.runs))) }
    ensures parts { result.1 ≡ within_u32 (length (split_parts (new.now ∷ map T.run part.now.runs))) }
{
    count_alone::<T, Brand>(part, new, Blank::new(1))
}

/// A count whose steps nobody counts.
fn count_alone<T: Runs, L: Ledger>(part: &Partition<T>, new: &SortedRun, blank: Blank) -> (u64, u32)
    requires index { Indexes (map T.run part.now.runs) part.now.view part.now.anchors }
    requires name { blank.name ≡ L.name }
    requires parts { blank.parts ≡ L.parts }
    requires some { 0 < blank.parts }
    ensures size { result.0 ≡ within_u64 (rows_size (merged (new.now ∷ map T.run part.now.runs))) }
    ensures parts { result.1 ≡ within_u32 (length (split_parts (new.now ∷ map T.run part.now.runs))) }
{
    let mut steps = Steps::<L>::begin(blank);
    let counted = count_rows(
        part.runs.as_slice(),
        &part.remix,
        new.as_slice(),
        &mut steps,
    );
    (counted.merged, counted.parts)
}

/// The count of all rows of a merge.
fn count_rows<T: Runs, L: Ledger>(
    runs: &[T],
    remix: &Remix,
    newer: &[Pair],
    steps: &mut Steps<L>,
) -> Counted
    requires index { Indexes (map T.run runs.now) remix.now.view remix.now.anchors }
    requires rises { IsRun newer.now }
    ensures { IsCount (merged (newer.now ∷ map T.run runs.now)) [] result }
{
    let mut place = first_place(runs, remix, newer);
    let mut counted = Counted::none();
    'rows: while let Some(origin) = next_row(runs, &remix.view, newer, &mut place, steps) {
        counted = counted.with_row(size_of(runs, newer, origin, steps));
    }
    counted
}
