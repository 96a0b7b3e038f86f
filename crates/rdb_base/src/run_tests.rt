//! A small run: each call of it once with ample memory, and the list of entries that only contracts see.
ghost use Rattle.std.specs.Prelude.{◌≡◌, ◌<◌, IfOk};

use crate::{Change, Entry, Key, Pair, SortedRun, Steps, ToldEntries, Value};
use std::alloc::Global;
use std::marker::Brand;
use std::sync::ledger::{Blank, Ledger};
use std::test::Fail;

fn pair_of(alloc: Global, key: &[u8], change: Change) -> Result<Pair, Fail>
    ensures { IfOk result (λ pair. pair.key ≡ key.now) }
{
    let key = Key::try_new(alloc, key)?;
    Ok(Pair { key, change })
}

/// Three pairs: `b` is put, `bb` is deleted, `c` is put.
fn run_of(alloc: Global) -> Result<SortedRun, Fail> {
    let first = pair_of(alloc, b"b", Change::Put(Value::try_new(alloc, b"1")?))?;
    let second = pair_of(alloc, b"bb", Change::Del)?;
    let third = pair_of(alloc, b"c", Change::Put(Value::try_new(alloc, b"23")?))?;
    let mut run = SortedRun::new(alloc);
    run.push(first)?;
    run.push(second)?;
    run.push(third)?;
    Ok(run)
}

fn found<'a, L: Ledger>(blank: Blank, run: &'a SortedRun, key: &[u8]) -> Option<&'a Change>
    requires name { blank.name ≡ L.name }
    requires parts { blank.parts ≡ L.parts }
    requires some { 0 < blank.parts }
{
    let mut steps = Steps::<L>::begin(blank);
    run.find(key, &mut steps)
}

/// Whether the run finds this change at a key, or none.
fn finds(run: &SortedRun, key: &[u8], want: Option<&Change>) -> bool {
    match (found::<Brand>(Blank::new(1), run, key), want) {
        (Some(found), Some(want)) => found == want,
        (found, want) => found.is_none() && want.is_none(),
    }
}

/// Whether the run finds a put of this value at a key.
fn finds_put(alloc: Global, run: &SortedRun, key: &[u8], value: &[u8]) -> Result<bool, Fail> {
    let want = Change::Put(Value::try_new(alloc, value)?);
    Ok(finds(run, key, Some(&want)))
}

/// Whether a run has so many pairs, of this size together.
fn has(run: &SortedRun, len: usize, size: u128) -> bool {
    run.len() == len && run.as_slice().len() == len && run.size() == size
}

#[test]
fn a_run_finds_its_changes(rt: HostRuntime) -> Result<(), Fail> {
    let run = run_of(rt.alloc())?;
    assert!(rt; has(&run, 3, 8 + 8 + 9));
    assert!(rt; finds(&run, b"a", None));
    assert!(rt; finds_put(rt.alloc(), &run, b"b", b"1")?);
    assert!(rt; finds(&run, b"ba", None));
    assert!(rt; finds(&run, b"bb", Some(&Change::Del)));
    assert!(rt; finds_put(rt.alloc(), &run, b"c", b"23")?);
    assert!(rt; finds(&run, b"d", None));
    Ok(())
}

/// Whether these are the pairs of a run.
fn has_pairs(pairs: &[Pair], run: &SortedRun) -> bool {
    pairs == run.as_slice()
}

/// A run that is taken apart and made again.
fn made_again(run: SortedRun, len: usize) -> Result<SortedRun, Fail> {
    let pairs = run.into_pairs();
    if pairs.len() != len {
        return Err("another number of pairs")?;
    }
    Ok(SortedRun::of(pairs))
}

#[test]
fn a_run_is_copied_and_taken_apart(rt: HostRuntime) -> Result<(), Fail> {
    let run = run_of(rt.alloc())?;
    let copy = run.try_copy(rt.alloc())?;
    assert!(rt; has_pairs(copy.as_slice(), &run));
    let again = made_again(copy, 3)?;
    assert!(rt; again.size() == run.size());
    assert!(rt; has_pairs(again.as_slice(), &run));
    Ok(())
}

#[test]
fn entries_are_told(rt: HostRuntime) -> Result<(), Fail> {
    let mut told = ToldEntries::new();
    told.push(&Entry {
        caller: 0,
        ordinal: 0,
        key: Key::try_new(rt.alloc(), b"a")?,
        change: Change::Del,
    });
    Ok(())
}
