//! Two callers in two threads.
ghost use Rattle.std.specs.Prelude.{◌≡◌, ◌+◌, [], length, List, IfSome};
ghost use Rattle.rdb_base.specs.declared.entry.Entry.{Entry};
ghost use Rattle.front_callers.specs.Callers.{puts, HasBoth};

use crate::putting::put_all;
use crate::shared_history::SharedHistory;
use front_rule::{Front, FrontBlank, FrontParts, Pass, Pen, StoreName, end, note};
use rdb_base::Row;
use std::alloc::Global;
use std::marker::Brand;
use std::sync::{Mutex, Wait};
use std::thread::{Threads, join};

// Each pass's caller puts its rows, in a thread of its own.
fn put_both<K: StoreName + Send + Sync, R: Threads + Wait + Sync>(
    rt: &R,
    alloc: Global,
    shared: &Mutex<SharedHistory<K>>,
    passes: (Pass<K>, Pass<K>),
    first: &[Row],
    second: &[Row],
) -> Option<(Pass<K>, Pass<K>)>
    requires callers { (passes.0.caller ≡ 0) × (passes.1.caller ≡ 1) }
    requires own { (passes.0.own ≡ []) × (passes.1.own ≡ []) }
    ensures callers { IfSome result (λ p. (p.0.caller ≡ 0) × (p.1.caller ≡ 1)) }
    ensures first { IfSome result (λ p. p.0.own ≡ puts 0 0 first.now) }
    ensures second { IfSome result (λ p. p.1.own ≡ puts 1 0 second.now) }
{
    let (a, b) = passes;
    let (a, b) = join(
        rt,
        move || -> Option<Pass<K>>
            requires { (a.own ≡ []) × (a.caller ≡ 0) }
            ensures { IfSome result (λ p. (p.caller ≡ 0) × (p.own ≡ puts 0 0 first.entry.now)) }
        { put_all(rt, alloc, shared, a, first) },
        move || -> Option<Pass<K>>
            requires { (b.own ≡ []) × (b.caller ≡ 1) }
            ensures { IfSome result (λ p. (p.caller ≡ 1) × (p.own ≡ puts 1 0 second.entry.now)) }
        { put_all(rt, alloc, shared, b, second) },
    );
    Some((a?, b?))
}

/// Makes the history of this name, lets both callers put their rows at once, each in a thread of its own, and ends
/// both. The answered pen has the one list.
///
/// None if memory or numbers ran out.
pub fn run_both<K: StoreName + Send + Sync, R: Threads + Wait + Sync>(
    rt: &R,
    alloc: Global,
    blank: FrontBlank,
    first: &[Row],
    second: &[Row],
) -> Option<Pen<K>>
    requires name { (blank.table ≡ K.table) × (blank.origin.first ≡ K.first) × (K.callers ≡ 2) }
    ensures { IfSome result (λ pen. HasBoth pen.list first.now second.now) }
{
    let FrontParts {
        pen,
        leaf,
        mut passes,
        keeper: _,
        desk: _,
    } = Front::<K>::make(alloc, blank, 2).ok()?;
    let b = passes.pop()?;
    let a = passes.pop()?;
    let shared = Mutex::new(SharedHistory::new(pen, leaf));
    let (a, b) = put_both(rt, alloc, &shared, (a, b), first, second)?;
    let mut pen = shared.into_inner().into_pen();
    end(&mut pen, a);
    end(&mut pen, b);
    Some(pen)
}

// The same, with nothing left that has the name: the number after the last entry's.
fn run_named<K: StoreName + Send + Sync, R: Threads + Wait + Sync>(
    rt: &R,
    alloc: Global,
    blank: FrontBlank,
    first: &[Row],
    second: &[Row],
) -> Option<u64>
    requires name { (blank.table ≡ K.table) × (blank.origin.first ≡ K.first) × (K.callers ≡ 2) }
    ensures { IfSome result (λ n.
        (list : List Entry) × HasBoth list first.now second.now × (n ≡ blank.origin.first + length list)
        ) }
{
    let mut pen = run_both::<K, R>(rt, alloc, blank, first, second)?;
    Some(note(&mut pen).front())
}

/// Two callers put their rows at once, each in a thread of its own, into a history whose first number is 0. The
/// answer is the number after the last entry's: there is one list, with the rows of both, each once and in order, and
/// nobody else's.
///
/// None if memory or numbers ran out.
pub fn run_two_callers<R: Threads + Wait + Sync>(
    rt: &R,
    alloc: Global,
    first: &[Row],
    second: &[Row],
) -> Option<u64>
    ensures { IfSome result (λ n. (list : List Entry) × HasBoth list first.now second.now × (n ≡ length list)) }
{
    let blank = FrontBlank::make(alloc, 0, 0, 0, 0).ok()?;
    run_named::<Brand, R>(rt, alloc, blank, first, second)
}
