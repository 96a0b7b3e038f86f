//! A view of eight runs whose order is written out by hand: thirty keys of run 0, then one key that all runs have.
ghost use Rattle.std.specs.Prelude.{◌≡◌, IfOk};

use crate::segments::Segments;
use crate::{FILLER, Spot, View, Walk};
use std::alloc::Global;
use std::process::Abort;
use std::sync::Arc;
use std::test::Fail;

const ONE_RUN: [u8; 32] = [
    0, 0, 0, 0, 0, 0, 0, 0, 0, 0, 0, 0, 0, 0, 0, 0, 0, 0, 0, 0, 0, 0, 0, 0, 0, 0, 0, 0, 0, 0, 0x3F,
    0x3F,
];

// The key of all runs: the newest version, and seven older ones, the last of them a deletion.
const ALL_RUNS: [u8; 32] = [
    0, 0x81, 0x82, 0x83, 0x84, 0x85, 0x86, 0xC7, 0x3F, 0x3F, 0x3F, 0x3F, 0x3F, 0x3F, 0x3F, 0x3F,
    0x3F, 0x3F, 0x3F, 0x3F, 0x3F, 0x3F, 0x3F, 0x3F, 0x3F, 0x3F, 0x3F, 0x3F, 0x3F, 0x3F, 0x3F, 0x3F,
];

fn two_segments(alloc: Global) -> Result<View, Fail>
    ensures { IfOk result (λ view. view.runs ≡ 8) }
{
    let mut view = View::new(alloc, 8);
    view.push(alloc, &[0, 0, 0, 0, 0, 0, 0, 0], &ONE_RUN)?;
    view.push(alloc, &[30, 0, 0, 0, 0, 0, 0, 0], &ALL_RUNS)?;
    Ok(view)
}

fn spot(run: u8, place: u32, old: bool, del: bool) -> Option<Spot> {
    Some(Spot {
        run,
        place,
        old,
        del,
    })
}

#[test]
fn what_was_pushed_is_read(rt: HostRuntime) -> Result<(), Fail> {
    let view = two_segments(rt.alloc())?;
    if view.segments() != 2 {
        return Err("two segments")?;
    }
    assert_eq!(rt; view.selector(0, 29), 0);
    assert_eq!(rt; view.selector(0, 30), FILLER);
    assert_eq!(rt; view.selector(1, 7), 0xC7);
    assert_eq!(rt; view.offset(1, 0), 30);
    assert_eq!(rt; view.offset(1, 7), 0);
    assert_eq!(rt; view.rank(0, 31, 0), 30);
    assert_eq!(rt; view.rank(1, 0, 0), 0);
    assert_eq!(rt; view.rank(1, 1, 0), 1);
    assert_eq!(rt; view.rank(1, 31, 7), 1);
    Ok(())
}

fn walks_from_the_last_key_of_one_run(rt: &impl Abort, view: &View) {
    let mut walk = Walk::at(0, 29);
    assert_eq!(rt; walk.next(view), spot(0, 29, false, false));
    assert_eq!(rt; walk.ahead(view), (1, 0));
    assert_eq!(rt; walk.next(view), spot(0, 30, false, false));
    for run in 1..7 {
        assert_eq!(rt; walk.next(view), spot(run, 0, true, false));
    }
    assert_eq!(rt; walk.next(view), spot(7, 0, true, true));
    assert_eq!(rt; walk.ahead(view), (2, 0));
    assert_eq!(rt; walk.next(view), None);
    assert_eq!(rt; walk.next(view), None);
}

#[test]
fn a_walk_passes_fillers_and_gives_old_places(rt: HostRuntime) -> Result<(), Fail> {
    let alloc = rt.alloc();
    let view = two_segments(alloc)?;
    walks_from_the_last_key_of_one_run(&rt, &view);
    let sealed = view.seal(alloc)?;
    walks_from_the_last_key_of_one_run(&rt, &sealed);
    walks_from_the_last_key_of_one_run(&rt, &sealed.share(alloc)?);
    Ok(())
}

#[test]
fn a_walk_begins_past_the_end(rt: HostRuntime) -> Result<(), Fail> {
    let view = two_segments(rt.alloc())?;
    let mut walk = Walk::at(0, 40);
    assert_eq!(rt; walk.next(&view), spot(0, 30, false, false));
    let mut walk = Walk::at(5, 0);
    assert_eq!(rt; walk.next(&view), None);
    assert_eq!(rt; walk.ahead(&view), (2, 0));
    Ok(())
}

#[test]
fn a_sealed_view_grows_apart_from_what_shares_it(rt: HostRuntime) -> Result<(), Fail> {
    let alloc = rt.alloc();
    let mut view = View::new(alloc, 1).seal(alloc)?;
    assert_eq!(rt; view.runs(), 1);
    let shared = view.share(alloc)?;
    view.push(alloc, &[0], &ONE_RUN)?;
    assert_eq!(rt; (view.segments(), shared.segments()), (1, 0));
    Ok(())
}

/// How many views share the segments of a sealed one.
fn owners(view: &View) -> Option<usize> {
    match &view.segments {
        Segments::Owned(_segments) => None,
        Segments::Shared(segments) => Some(Arc::strong_count(segments)),
    }
}

#[test]
fn a_sealed_view_is_shared_and_not_copied(rt: HostRuntime) -> Result<(), Fail> {
    let alloc = rt.alloc();
    let view = two_segments(alloc)?;
    assert_eq!(rt; owners(&view), None);
    let sealed = view.seal(alloc)?;
    assert_eq!(rt; owners(&sealed), Some(1));
    let shared = sealed.share(alloc)?;
    assert_eq!(rt; (owners(&sealed), owners(&shared)), (Some(2), Some(2)));
    Ok(())
}
