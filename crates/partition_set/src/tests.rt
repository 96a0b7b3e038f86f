//! Sets of one partition: each key of random runs beside a plain look. Sets of several stand in `several`.
ghost use Rattle.std.specs.Prelude.{◌≡◌, ◌<◌, ◌≤◌, length, IfOk};

mod several;

use crate::{Partition, PartitionSet};
use rdb_base::{Change, Key, Pair, Steps, Value};
use remix_build::build;
use remix_seek::{RunInMemory, Runs};
use std::alloc::Global;
use std::marker::Brand;
use std::process::Abort;
use std::sync::ledger::{Blank, Ledger};
use std::test::Fail;

/// How many sets of runs are tried, and how many keys there are.
const SETS: u64 = 100;

const KEYS: u8 = 24;

/// The one partition of these runs.
fn one_partition<L: Ledger>(
    alloc: Global,
    runs: Vec<RunInMemory>,
    steps: &mut Steps<L>,
) -> Result<PartitionSet<RunInMemory>, Fail>
    requires { length runs.items ≤ 8 }
{
    let remix = build(alloc, runs.as_slice(), steps)?;
    let low = Vec::new(alloc);
    let mut parts = Vec::new(alloc);
    parts.push(Partition {
        low,
        base: 7,
        runs,
        remix,
    })?;
    Ok(PartitionSet::make(parts))
}

/// A number below n.
fn drawn(state: &mut u64, n: u64) -> u64
    requires { 0 < n }
    ensures { result < n }
{
    *state = state
        .wrapping_mul(6364136223846793005)
        .wrapping_add(1442695040888963407);
    (*state >> 33) % n
}

/// Random pairs whose keys are numbers from `first` on, none at all once in six times. In `newest` their changes take
/// the place of those of older runs.
fn random_pairs(
    alloc: Global,
    state: &mut u64,
    first: u8,
    newest: &mut [Option<Change>],
) -> Result<Vec<Pair>, Fail> {
    let mut pairs = Vec::new(alloc);
    let rarity = drawn(state, 6);
    let mut number = first;
    for change in newest.iter_mut() {
        if rarity > 0 && drawn(state, rarity) == 0 {
            let made = random_change(alloc, state)?;
            let key = Key::try_new(alloc, &[number])?;
            pairs.push(Pair {
                key,
                change: made.try_copy(alloc)?,
            })?;
            *change = Some(made);
        }
        number = number.wrapping_add(1);
    }
    Ok(pairs)
}

fn random_change(alloc: Global, state: &mut u64) -> Result<Change, Fail> {
    if drawn(state, 3) == 0 {
        return Ok(Change::Del);
    }
    let byte = drawn(state, 256) as u8;
    Ok(Change::Put(Value::try_new(alloc, &[byte])?))
}

fn run_of(pairs: Vec<Pair>) -> Result<RunInMemory, Fail>
    ensures { IfOk result (λ run. run ≡ pairs.items) }
{
    match RunInMemory::of(pairs) {
        None => Err("keys do not rise")?,
        Some(run) => Ok(run),
    }
}

/// No change yet at any of so many keys.
fn no_changes(alloc: Global, keys: u8) -> Result<Vec<Option<Change>>, Fail> {
    let mut newest = Vec::new(alloc);
    for _key in 0..keys {
        newest.push(None)?;
    }
    Ok(newest)
}

/// Up to eight random runs, the newest first.
fn random_runs(
    alloc: Global,
    state: &mut u64,
    newest: &mut [Option<Change>],
) -> Result<Vec<RunInMemory>, Fail> {
    let mut oldest_first = Vec::new(alloc);
    for _run in 0..drawn(state, 9) {
        oldest_first.push(run_of(random_pairs(alloc, state, 0, newest)?)?)?;
    }
    let mut runs = Vec::new(alloc);
    for _run in 0..oldest_first.len() {
        match oldest_first.pop() {
            None => {}
            Some(run) => runs.push(run)?,
        }
    }
    Ok(runs)
}

fn total_of(runs: &[RunInMemory]) -> u128 {
    let mut total: u128 = 0;
    for run in runs {
        total = total.saturating_add(run.size());
    }
    total
}

/// Each key from `first` on has just the change that is the newest.
fn gets_newest(
    rt: &(impl Abort + AllocGlobal),
    set: &PartitionSet<RunInMemory>,
    first: u8,
    newest: &[Option<Change>],
) -> Result<(), Fail> {
    let alloc = rt.alloc();
    let mut number = first;
    for want in newest {
        let key = Key::try_new(alloc, &[number])?;
        assert_eq!(rt; &set.get(alloc, &key)?, want, "at {number}");
        number = number.wrapping_add(1);
    }
    Ok(())
}

fn compare_set<L: Ledger>(
    rt: &(impl Abort + AllocGlobal),
    state: &mut u64,
    steps: &mut Steps<L>,
) -> Result<(), Fail> {
    let alloc = rt.alloc();
    let mut newest = no_changes(alloc, KEYS)?;
    let runs = random_runs(alloc, state, newest.as_mut_slice())?;
    if runs.len() > 8 {
        return Err("more than eight runs")?;
    }
    let total = total_of(runs.as_slice());
    let set = one_partition(alloc, runs, steps)?;
    assert_eq!(rt; set.total(), total);
    gets_newest(rt, &set, 0, newest.as_slice())?;
    let past = Key::try_new(alloc, &[KEYS])?;
    assert_eq!(rt; set.get(alloc, &past)?, None);
    Ok(())
}

fn compare_sets<L: Ledger>(rt: &(impl Abort + AllocGlobal), blank: Blank) -> Result<(), Fail>
    requires name { blank.name ≡ L.name }
    requires parts { blank.parts ≡ L.parts }
    requires some { 0 < blank.parts }
{
    let mut steps = Steps::<L>::begin(blank);
    let mut state = 1;
    for _set in 0..SETS {
        compare_set(rt, &mut state, &mut steps)?;
    }
    Ok(())
}

#[test]
fn each_key_has_the_newest_change_of_random_runs(rt: HostRuntime) -> Result<(), Fail> {
    compare_sets::<Brand>(&rt, Blank::new(1))
}
