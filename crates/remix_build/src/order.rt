//! The merge of runs into one order of versions, told as selectors. Each key is read once.
ghost use Rattle.std.specs.Prelude.{◌≡◌, ◌+◌, ◌<◌, ◌≤◌, length, map, IfOk, slice_get, replicate};
ghost use Rattle.remix_seek.specs.Reads.{KeyAt};
ghost use Rattle.remix_seek.specs.Versions.{run_at, has_key};
ghost use Rattle.remix_build.specs.Heads.{lent_key};
ghost use Rattle.remix_build.specs.Merging.{IsOrder, selector_after, selector_by, deletion_at};
ghost use Rattle.remix_build.specs.Packing.{AreRuns};

use crate::heads::{first_heads, head_at, least};
use rdb_base::{NoMemory, Steps, compare_bytes};
use remix_seek::Runs;
use remix_view::selector::{DELETION, OLD};
use std::alloc::{AllocError, Global};
use std::sync::ledger::Ledger;

/// The selectors of all versions of the runs, in order, without a filler.
pub(crate) fn order_of<T: Runs, L: Ledger>(
    alloc: Global,
    runs: &[T],
    steps: &mut Steps<L>,
) -> Result<Vec<u8>, NoMemory>
    requires few { length runs.now ≤ 8 }
    requires runs { AreRuns (map T.run runs.now) }
    ensures order { IfOk result (λ order. IsOrder (map T.run runs.now) order.items) }
    ensures cost { IfOk result (λ order. steps.new ≡ steps.old + length order.items) }
{
    let mut places = zeros(alloc, runs.len())?;
    let mut heads = first_heads(alloc, runs, steps)?;
    let mut order: Vec<u8> = Vec::new(alloc);
    let mut last: Option<&[u8]> = None;
    'versions: for _turn in 0..u64::MAX {
        match least(heads.as_slice()) {
            None => return Ok(order),
            Some((run, key)) => {
                let place = places[run as usize];
                let after = place + 1;
                order.push(next_selector(runs, run, place, last, key))?;
                places[run as usize] = after;
                heads[run as usize] = head_at(&runs[run as usize], after, steps);
                last = Some(key);
            }
        }
    }
    Err(AllocError)
}

pub(crate) fn zeros(alloc: Global, count: usize) -> Result<Vec<u32>, NoMemory>
    ensures { IfOk result (λ places. places.items ≡ replicate count 0) }
{
    vec![in alloc; 0u32; count]
}

/// The selector of a run's pair, whose key this is, after a version with the key `last`.
fn next_selector<T: Runs>(runs: &[T], run: u8, place: u32, last: Option<&[u8]>, key: &[u8]) -> u8
    requires few { length runs.now ≤ 8 }
    requires run { run < length runs.now }
    requires key { KeyAt (run_at (map T.run runs.now) run) place key.now }
    ensures { result ≡ selector_after (lent_key last.entry) run place
        (slice_get (run_at (map T.run runs.now) run) place) }
{
    let deletion = is_deletion(runs, run, place);
    let old = is_same_key(last, key);
    selector_from(run, deletion, old)
}

/// Whether there is a key before, and it is this one.
fn is_same_key(last: Option<&[u8]>, key: &[u8]) -> bool
    ensures { result ≡ has_key (lent_key last.entry) key.now }
{
    match last {
        None => false,
        Some(before) => compare_bytes(before, key).is_eq(),
    }
}

/// The selector of a run with these marks.
fn selector_from(run: u8, deletion: bool, old: bool) -> u8
    requires { run < 8 }
    ensures { result ≡ selector_by run deletion old }
{
    run + if deletion { DELETION } else { 0 } + if old { OLD } else { 0 }
}

/// Whether a run has a deletion at a place.
fn is_deletion<T: Runs>(runs: &[T], run: u8, place: u32) -> bool
    requires run { run < length runs.now }
    requires place { place < length (run_at (map T.run runs.now) run) }
    ensures { result ≡ deletion_at (slice_get (run_at (map T.run runs.now) run) place) }
{
    runs[run as usize].lent_value(place).is_none()
}
