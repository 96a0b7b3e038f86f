//! The heads of all runs, lent, and the one that comes first: the least key, and of equal keys the newest run.
ghost use Rattle.std.specs.Prelude.{◌≡◌, ◌+◌, ◌<◌, ◌≤◌, length, map, slice_get, IfOk, if◌then◌else◌};
ghost use Rattle.remix_build.specs.Heads.{LeastHead, AreFirst, lent_key, head_of_run, key_of};
ghost use Rattle.remix_build.specs.Costs.{has_head, heads_there};

use rdb_base::{NoMemory, Steps, compare_bytes};
use remix_seek::Runs;
use std::alloc::Global;
use std::sync::ledger::Ledger;

/// The first key of each run, where there is one.
pub(crate) fn first_heads<'a, T: Runs, L: Ledger>(
    alloc: Global,
    runs: &'a [T],
    steps: &mut Steps<L>,
) -> Result<Vec<Option<&'a [u8]>>, NoMemory>
    ensures heads { IfOk result (λ heads. AreFirst (map T.run runs.now) heads.items) }
    ensures cost { IfOk result (λ heads. steps.new ≡ steps.old + heads_there heads.items) }
{
    let mut heads = Vec::with_capacity(alloc, runs.len())?;
    'runs: for run in runs {
        heads.push(head_at(run, 0, steps))?;
    }
    Ok(heads)
}

/// The key at a place of a run, where there is one.
pub(crate) fn head_at<'a, T: Runs, L: Ledger>(
    run: &'a T,
    place: u32,
    steps: &mut Steps<L>,
) -> Option<&'a [u8]>
    ensures head { lent_key result ≡ key_of (slice_get (T.run run.now) place) }
    ensures cost { steps.new ≡ steps.old + (if has_head result then 1 else 0) }
{
    if place < run.len() {
        Some(run.lent_key(place, steps))
    } else {
        None
    }
}

/// The run whose head comes first, and that head. None where no run has a head.
pub(crate) fn least<'a>(heads: &[Option<&'a [u8]>]) -> Option<(u8, &'a [u8])>
    requires few { length heads.now ≤ 8 }
    ensures { LeastHead heads.now (length heads.now) result }
{
    let mut best = None;
    let mut run: u8 = 0;
    'heads: while (run as usize) < heads.len() {
        best = better(heads, best, run, heads[run as usize]);
        run += 1;
    }
    best
}

/// The better of the best so far and the head of one run more.
fn better<'a>(
    heads: &[Option<&'a [u8]>],
    best: Option<(u8, &'a [u8])>,
    run: u8,
    head: Option<&'a [u8]>,
) -> Option<(u8, &'a [u8])>
    requires few { length heads.now ≤ 8 }
    requires run { run < length heads.now }
    requires best { LeastHead heads.now run best }
    requires head { lent_key head ≡ head_of_run heads.now run }
    ensures { LeastHead heads.now (run + 1) result }
{
    match head {
        None => best,
        Some(key) => match best {
            None => Some((run, key)),
            Some((other, least)) => {
                let before = compare_bytes(key, least).is_lt();
                if before {
                    Some((run, key))
                } else {
                    Some((other, least))
                }
            }
        },
    }
}
