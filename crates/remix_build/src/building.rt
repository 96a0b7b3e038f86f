ghost use Rattle.std.specs.Prelude.{◌≡◌, ◌+◌, ◌<◌, ◌≤◌, ℕ, length, map, slice_index, IfOk, OnOk};
ghost use Rattle.remix_seek.specs.Indexes.{Indexes};
ghost use Rattle.remix_build.specs.Merging.{IsOrder};
ghost use Rattle.remix_build.specs.Packing.{AreRuns, Packed};
ghost use Rattle.remix_build.specs.Costs.{pairs_in};

use crate::lengths::ask_lengths;
use crate::order::order_of;
use crate::packing::{Packing, add_segment};
use rdb_base::{NoMemory, Steps};
use remix_seek::{Anchors, Remix, Runs};
use std::alloc::Global;
use std::sync::ledger::Ledger;

/// Builds the index of these runs, the newest first. It is sealed: a share of it copies no selector and no key.
///
/// 1. The runs are merged once, into selectors: of each version in order the run, and its marks. Each key is read once.
/// 2. The selectors are cut into segments. The key at the first place of each is read once more, as its anchor.
pub fn build<T: Runs, L: Ledger>(
    alloc: Global,
    runs: &[T],
    steps: &mut Steps<L>,
) -> Result<Remix, NoMemory>
    requires few { length runs.now ≤ 8 }
    ensures index { IfOk result (λ remix. Indexes (map T.run runs.now) remix.view remix.anchors) }
    ensures cost { IfOk result (λ remix.
        steps.new ≡ steps.old + pairs_in (map T.run runs.now) + length remix.view.segments) }
{
    ask_lengths(runs);
    let order = order_of(alloc, runs, steps)?;
    let index = packed(alloc, runs, order.as_slice(), steps)?;
    index.seal(alloc)
}

/// The index of an order, segment by segment.
fn packed<T: Runs, L: Ledger>(
    alloc: Global,
    runs: &[T],
    order: &[u8],
    steps: &mut Steps<L>,
) -> Result<Remix, NoMemory>
    requires few { length runs.now ≤ 8 }
    requires runs { AreRuns (map T.run runs.now) }
    requires order { IsOrder (map T.run runs.now) order.now }
    ensures index { IfOk result (λ remix. Indexes (map T.run runs.now) remix.view remix.anchors) }
    ensures cost { IfOk result (λ remix. steps.new ≡ steps.old + length remix.view.segments) }
{
    let mut packing = Packing::begin(alloc, runs.len())?;
    'segments: while packing.at < order.len() {
        add_segment(alloc, runs, order, &mut packing, steps)?;
    }
    Ok(packing.index)
}
