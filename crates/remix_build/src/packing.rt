ghost use Rattle.std.specs.Prelude.{◌≡◌, ◌+◌, ◌<◌, ◌≤◌, [], ℕ, length, map, slice_index, replicate, IfOk, OnOk};
ghost use Rattle.remix_view.specs.Selectors.{run_in};
ghost use Rattle.remix_seek.specs.Versions.{run_at};
ghost use Rattle.remix_seek.specs.Reads.{KeyAt};
ghost use Rattle.remix_build.specs.Packing.{AreRuns, Packed};

use crate::counts::{Counts, counted, no_counts};
use crate::cutting::{closed, cut};
use rdb_base::{Key, NoMemory, Steps};
use remix_seek::{Anchors, Remix, Runs};
use remix_view::View;
use remix_view::selector::run_in;
use std::alloc::{AllocError, Global};
use std::sync::ledger::Ledger;

/// An index that is being packed: the segments so far, how many versions of each run they have, and how many in all.
#[derive(Drop)]
pub(crate) struct Packing {
    pub(crate) index: Remix,
    pub(crate) counts: Counts,
    pub(crate) at: usize,
}

impl Packing {
    /// Nothing packed yet, of so many runs.
    pub(crate) fn begin(alloc: Global, runs: usize) -> Result<Packing, NoMemory>
        requires { runs ≤ 8 }
        ensures view { IfOk result (λ packing. packing.index.view ≡ record { runs = runs; segments = [] }) }
        ensures anchors { IfOk result (λ packing. packing.index.anchors ≡ []) }
        ensures counts { IfOk result (λ packing. packing.counts.items ≡ replicate runs 0) }
        ensures at { IfOk result (λ packing. packing.at ≡ 0) }
    {
        let counts = no_counts(alloc, runs)?;
        let view = View::new(alloc, runs as u8);
        let anchors = Anchors::new(alloc);
        Ok(Packing {
            index: Remix { view, anchors },
            counts,
            at: 0,
        })
    }
}

/// Adds the segment of the next selectors of an order.
pub(crate) fn add_segment<T: Runs, L: Ledger>(
    alloc: Global,
    runs: &[T],
    order: &[u8],
    packing: &mut Packing,
    steps: &mut Steps<L>,
) -> Result<(), NoMemory>
    requires few { length runs.now ≤ 8 }
    requires runs { AreRuns (map T.run runs.now) }
    requires packed { Packed (map T.run runs.now) order.now packing.old.index.view.segments
        packing.old.index.anchors packing.old.counts.items packing.old.at }
    requires more { packing.old.at < length order.now }
    requires view { packing.old.index.view.runs ≡ length runs.now }
    ensures packed { OnOk result (Packed (map T.run runs.now) order.now packing.new.index.view.segments
        packing.new.index.anchors packing.new.counts.items packing.new.at) }
    ensures view { OnOk result (packing.new.index.view.runs ≡ length runs.now) }
    ensures further { OnOk result (packing.old.at < packing.new.at) }
    ensures one { OnOk result
        (length packing.new.index.view.segments ≡ length packing.old.index.view.segments + 1) }
    ensures cost { OnOk result (steps.new ≡ steps.old + 1) }
{
    let (_, rest) = order.split_at(packing.at);
    let places = cut(rest);
    let (front, _) = rest.split_at(places);
    if packing.index.view.segments() == u32::MAX {
        // It cannot come: each segment but the last has at least 25 places filled.
        return Err(AllocError);
    }
    let anchor = anchor_of(
        alloc,
        runs,
        packing.counts.as_slice(),
        order[packing.at],
        steps,
    )?;
    let later = counted(alloc, packing.counts.as_slice(), front)?;
    packing
        .index
        .view
        .push(alloc, packing.counts.as_slice(), &closed(front))?;
    packing.index.anchors.push(alloc, anchor)?;
    packing.counts = later;
    packing.at += places;
    Ok(())
}

/// A copy of the key that the first selector of a segment names, where so many versions of each run stand before.
fn anchor_of<T: Runs, L: Ledger>(
    alloc: Global,
    runs: &[T],
    counts: &[u32],
    selector: u8,
    steps: &mut Steps<L>,
) -> Result<Key, NoMemory>
    requires counts { length counts.now ≡ length runs.now }
    requires run { run_in selector < length runs.now }
    requires place { slice_index counts.now (run_in selector) < length (run_at (map T.run runs.now) (run_in selector)) }
    ensures key { IfOk result (λ key. KeyAt (run_at (map T.run runs.now) (run_in selector))
        (slice_index counts.now (run_in selector)) key) }
    ensures cost { steps.new ≡ steps.old + 1 }
{
    let run = run_in(selector) as usize;
    runs[run].key_at(alloc, counts[run], steps)
}
