//! Indexes of runs written out by hand. Random ones stand in `generated`.
ghost use Rattle.std.specs.Prelude.{◌≡◌, ◌<◌};

mod generated;

use crate::build;
use rdb_base::{Change, Key, Pair, Steps, Value};
use remix_seek::{Anchors, Remix, RunInMemory};
use remix_view::{FILLER, Spot, View, Walk};
use std::alloc::Global;
use std::marker::Brand;
use std::process::Abort;
use std::sync::ledger::{Blank, Ledger};
use std::test::Fail;

fn put(alloc: Global, key: &[u8]) -> Result<Pair, Fail> {
    let key = Key::try_new(alloc, key)?;
    let value = Value::try_new(alloc, b"v")?;
    Ok(Pair {
        key,
        change: Change::Put(value),
    })
}

fn run_of(pairs: Vec<Pair>) -> Result<RunInMemory, Fail> {
    match RunInMemory::of(pairs) {
        None => Err("keys do not rise")?,
        Some(run) => Ok(run),
    }
}

/// Run 0 has a00 to a29 and m, runs 1 to 7 have m alone.
fn eight_runs(alloc: Global) -> Result<Vec<RunInMemory>, Fail> {
    let mut pairs = Vec::new(alloc);
    for tens in 0..3u8 {
        for ones in 0..10u8 {
            pairs.push(put(alloc, &[b'a', b'0' + tens, b'0' + ones])?)?;
        }
    }
    pairs.push(put(alloc, b"m")?)?;
    let mut runs = Vec::new(alloc);
    runs.push(run_of(pairs)?)?;
    for _run in 1..8 {
        let mut pairs = Vec::new(alloc);
        pairs.push(put(alloc, b"m")?)?;
        runs.push(run_of(pairs)?)?;
    }
    Ok(runs)
}

/// A segment has these selectors, and fillers after them.
fn selectors_are(rt: &impl Abort, view: &View, segment: u32, front: &[u8]) -> Result<(), Fail> {
    if segment >= view.segments() {
        return Err("no such segment")?;
    }
    for place in 0..32u8 {
        let want = match front.get(place as usize) {
            None => FILLER,
            Some(selector) => *selector,
        };
        assert_eq!(rt; view.selector(segment, place), want, "at {place}");
    }
    Ok(())
}

fn offsets_are(rt: &impl Abort, view: &View, segment: u32, want: &[u32]) -> Result<(), Fail> {
    if segment >= view.segments() {
        return Err("no such segment")?;
    }
    assert_eq!(rt; view.runs() as usize, want.len());
    for run in 0..view.runs() {
        let offset = view.offset(segment, run);
        assert_eq!(rt; Some(&offset), want.get(run as usize), "of run {run}");
    }
    Ok(())
}

fn anchor_is(rt: &impl Abort, anchors: &Anchors, segment: u32, want: &[u8]) -> Result<(), Fail> {
    if segment as usize >= anchors.count() {
        return Err("no such anchor")?;
    }
    assert_eq!(rt; anchors.at(segment).as_bytes(), want);
    Ok(())
}

fn walks_through_m(rt: &impl Abort, view: &View) {
    let mut walk = Walk::at(1, 0);
    for run in 0..8u8 {
        let place = if run == 0 { 30 } else { 0 };
        let (old, del) = (run != 0, false);
        let want = Spot {
            run,
            place,
            old,
            del,
        };
        assert_eq!(rt; walk.next(view), Some(want));
    }
    assert_eq!(rt; walk.next(view), None);
}

fn is_the_index_of_eight_runs(rt: &impl Abort, index: &Remix) -> Result<(), Fail> {
    assert_eq!(rt; (index.view.segments(), index.anchors.count()), (2, 2));
    anchor_is(rt, &index.anchors, 0, b"a00")?;
    offsets_are(rt, &index.view, 0, &[0, 0, 0, 0, 0, 0, 0, 0])?;
    selectors_are(rt, &index.view, 0, &[0; 30])?;
    anchor_is(rt, &index.anchors, 1, b"m")?;
    offsets_are(rt, &index.view, 1, &[30, 0, 0, 0, 0, 0, 0, 0])?;
    let group = [0, 0x81, 0x82, 0x83, 0x84, 0x85, 0x86, 0x87];
    selectors_are(rt, &index.view, 1, &group)?;
    walks_through_m(rt, &index.view);
    Ok(())
}

fn index_of_eight_runs<L: Ledger>(rt: &(impl Abort + AllocGlobal), blank: Blank) -> Result<(), Fail>
    requires name { blank.name ≡ L.name }
    requires parts { blank.parts ≡ L.parts }
    requires some { 0 < blank.parts }
{
    let alloc = rt.alloc();
    let mut steps = Steps::<L>::begin(blank);
    let runs = eight_runs(alloc)?;
    if runs.len() != 8 {
        return Err("eight runs")?;
    }
    let index = build(alloc, runs.as_slice(), &mut steps)?;
    is_the_index_of_eight_runs(rt, &index)?;
    for (key, want) in [
        (b"".as_slice(), (0, 0)),
        (b"a00", (0, 0)),
        (b"a04x", (0, 5)),
        (b"b", (1, 0)),
        (b"m", (1, 0)),
        (b"m\x00", (2, 0)),
    ] {
        assert_eq!(rt; index.seek(runs.as_slice(), key, &mut steps)?, want);
    }
    Ok(())
}

#[test]
fn one_key_of_all_runs_takes_a_segment_of_its_own(rt: HostRuntime) -> Result<(), Fail> {
    index_of_eight_runs::<Brand>(&rt, Blank::new(1))
}

fn index_of_no_run<L: Ledger>(rt: &(impl Abort + AllocGlobal), blank: Blank) -> Result<(), Fail>
    requires name { blank.name ≡ L.name }
    requires parts { blank.parts ≡ L.parts }
    requires some { 0 < blank.parts }
{
    let alloc = rt.alloc();
    let mut steps = Steps::<L>::begin(blank);
    let runs: Vec<RunInMemory> = Vec::new(alloc);
    let index = build(alloc, runs.as_slice(), &mut steps)?;
    assert_eq!(rt; index.view.segments(), 0);
    assert_eq!(rt; index.seek(runs.as_slice(), b"k", &mut steps)?, (0, 0));
    Ok(())
}

#[test]
fn no_run_has_no_segment(rt: HostRuntime) -> Result<(), Fail> {
    index_of_no_run::<Brand>(&rt, Blank::new(1))
}
