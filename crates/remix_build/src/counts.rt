//! How many versions of each run stand before a segment: its offsets.
ghost use Rattle.std.specs.Prelude.{◌≡◌, ◌+◌, ◌<◌, ◌≤◌, ◌^◌, ℕ, length, replicate, slice_index, IfOk};
ghost use Rattle.remix_view.specs.Selectors.{rank_in};
ghost use Rattle.remix_build.specs.Packing.{CountedOn};

use rdb_base::NoMemory;
use remix_view::selector::rank;
use smallvec::SmallVec;
use std::alloc::Global;

/// A count for each run, next to each other and mostly without an allocation.
pub(crate) type Counts = SmallVec<u32, 8>;

/// Nothing counted yet of so many runs.
pub(crate) fn no_counts(alloc: Global, runs: usize) -> Result<Counts, NoMemory>
    ensures { IfOk result (λ counts. counts.items ≡ replicate runs 0) }
{
    let mut counts = SmallVec::new(alloc);
    'runs: for _run in 0..runs {
        counts.push(0)?;
    }
    Ok(counts)
}

/// The counts after the selectors of one segment.
pub(crate) fn counted(alloc: Global, counts: &[u32], selectors: &[u8]) -> Result<Counts, NoMemory>
    requires runs { length counts.now ≤ 8 }
    requires few { length selectors.now ≤ 32 }
    requires room { (run : ℕ) → run < length counts.now →
        slice_index counts.now run + rank_in run selectors.now < 2 ^ 32 }
    ensures { IfOk result (λ later. CountedOn counts.now selectors.now later.items) }
{
    let mut later = SmallVec::new(alloc);
    'runs: for run in 0..counts.len() {
        let more = rank(selectors, run as u8) as u32;
        later.push(counts[run] + more)?;
    }
    Ok(later)
}
