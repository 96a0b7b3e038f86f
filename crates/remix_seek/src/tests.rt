//! A run in memory, read by place, and what is shared of anchors and of an index. Searches are tested where indexes
//! are built.
ghost use Rattle.std.specs.Prelude.{◌≡◌, ◌<◌};

use crate::anchor_keys::AnchorKeys;
use crate::{Anchors, Remix, RunInMemory, Runs, Share};
use rdb_base::{Change, Key, Pair, SortedRun, Steps, Value};
use remix_view::{FILLER, View};
use std::alloc::Global;
use std::marker::Brand;
use std::process::Abort;
use std::sync::Arc;
use std::sync::ledger::{Blank, Ledger};
use std::test::Fail;

fn pair(alloc: Global, key: &[u8], value: Option<&[u8]>) -> Result<Pair, Fail> {
    let key = Key::try_new(alloc, key)?;
    let change = match value {
        None => Change::Del,
        Some(value) => Change::Put(Value::try_new(alloc, value)?),
    };
    Ok(Pair { key, change })
}

/// The run of a=1 and of the deletion of bc.
fn two_pairs(alloc: Global) -> Result<RunInMemory, Fail> {
    let mut pairs = Vec::new(alloc);
    pairs.push(pair(alloc, b"a", Some(b"1"))?)?;
    pairs.push(pair(alloc, b"bc", None)?)?;
    match RunInMemory::of(pairs) {
        None => Err("not a run")?,
        Some(run) => Ok(run),
    }
}

/// The key at a place, lent and copied.
fn key_is<L: Ledger>(
    rt: &(impl Abort + AllocGlobal),
    run: &RunInMemory,
    place: u32,
    want: &[u8],
    steps: &mut Steps<L>,
) -> Result<(), Fail> {
    if place >= run.len() {
        return Err("no such place")?;
    }
    assert_eq!(rt; run.lent_key(place, steps), want);
    let copy = run.key_at(rt.alloc(), place, steps)?;
    assert_eq!(rt; copy.as_bytes(), want);
    Ok(())
}

/// The value at a place, lent, and the change, copied.
fn change_is(
    rt: &(impl Abort + AllocGlobal),
    run: &RunInMemory,
    place: u32,
    value: Option<&[u8]>,
    change: Change,
) -> Result<(), Fail> {
    if place >= run.len() {
        return Err("no such place")?;
    }
    assert_eq!(rt; run.lent_value(place), value);
    assert_eq!(rt; run.change_at(rt.alloc(), place)?, change);
    Ok(())
}

fn is_two_pairs(rt: &(impl Abort + AllocGlobal), run: &RunInMemory) -> Result<(), Fail> {
    assert_eq!(rt; (run.len(), run.size()), (2, 16));
    let one = Value::try_new(rt.alloc(), b"1")?;
    change_is(rt, run, 0, Some(b"1".as_slice()), Change::Put(one))?;
    change_is(rt, run, 1, None, Change::Del)
}

fn read_by_place<L: Ledger>(rt: &(impl Abort + AllocGlobal), blank: Blank) -> Result<(), Fail>
    requires name { blank.name ≡ L.name }
    requires parts { blank.parts ≡ L.parts }
    requires some { 0 < blank.parts }
{
    let mut steps = Steps::<L>::begin(blank);
    let run = two_pairs(rt.alloc())?;
    key_is(rt, &run, 0, b"a", &mut steps)?;
    key_is(rt, &run, 1, b"bc", &mut steps)?;
    is_two_pairs(rt, &run)
}

#[test]
fn a_run_in_memory_is_read_by_place(rt: HostRuntime) -> Result<(), Fail> {
    read_by_place::<Brand>(&rt, Blank::new(1))
}

#[test]
fn a_run_that_is_shared_is_equal(rt: HostRuntime) -> Result<(), Fail> {
    let run = two_pairs(rt.alloc())?;
    let copy = run.share(rt.alloc())?;
    is_two_pairs(&rt, &copy)
}

#[test]
fn equal_keys_are_no_run(rt: HostRuntime) -> Result<(), Fail> {
    let alloc = rt.alloc();
    let mut pairs = Vec::new(alloc);
    pairs.push(pair(alloc, b"b", None)?)?;
    pairs.push(pair(alloc, b"b", None)?)?;
    assert!(rt; RunInMemory::of(pairs).is_none());
    Ok(())
}

#[test]
fn no_pair_is_a_run(rt: HostRuntime) {
    assert!(rt; RunInMemory::new(SortedRun::new(rt.alloc())).is_some());
}

/// An index of one segment, all fillers, whose anchor is a.
fn one_anchor(alloc: Global) -> Result<Remix, Fail> {
    let mut anchors = Anchors::new(alloc);
    anchors.push(alloc, Key::try_new(alloc, b"a")?)?;
    let mut view = View::new(alloc, 1);
    view.push(alloc, &[0], &[FILLER; 32])?;
    Ok(Remix { view, anchors })
}

fn anchor_is(rt: &impl Abort, anchors: &Anchors, segment: u32, want: &[u8]) -> Result<(), Fail> {
    if segment as usize >= anchors.count() {
        return Err("no such anchor")?;
    }
    assert_eq!(rt; anchors.at(segment).as_bytes(), want);
    Ok(())
}

#[test]
fn sealed_anchors_grow_apart_from_what_shares_them(rt: HostRuntime) -> Result<(), Fail> {
    let alloc = rt.alloc();
    let index = one_anchor(alloc)?.seal(alloc)?;
    let mut other = index.share(alloc)?;
    other.anchors.push(alloc, Key::try_new(alloc, b"b")?)?;
    let copy = other.share(alloc)?;
    anchor_is(&rt, &copy.anchors, 0, b"a")?;
    anchor_is(&rt, &copy.anchors, 1, b"b")?;
    anchor_is(&rt, &index.anchors, 0, b"a")?;
    assert_eq!(rt; (index.anchors.count(), copy.anchors.count()), (1, 2));
    assert_eq!(rt; (index.view.segments(), copy.view.segments()), (1, 1));
    Ok(())
}

/// How many indexes share the anchors of a sealed one.
fn owners(anchors: &Anchors) -> Option<usize> {
    match &anchors.keys {
        AnchorKeys::Owned(_keys) => None,
        AnchorKeys::Shared(keys) => Some(Arc::strong_count(keys)),
    }
}

#[test]
fn sealed_anchors_are_shared_and_not_copied(rt: HostRuntime) -> Result<(), Fail> {
    let alloc = rt.alloc();
    let index = one_anchor(alloc)?;
    assert_eq!(rt; owners(&index.anchors), None);
    let sealed = index.seal(alloc)?;
    let shared = sealed.share(alloc)?;
    assert_eq!(rt;
        (owners(&sealed.anchors), owners(&shared.anchors)),
        (Some(2), Some(2))
    );
    Ok(())
}
