//! Sets of three partitions of two random runs each: bounds, the partition of a key, and each key beside a plain look.
ghost use Rattle.std.specs.Prelude.{◌≡◌, ◌<◌, ◌≤◌, true, length, IfOk, Some, [], ◌∷◌};
ghost use Rattle.std.specs.declared.cmp.Ordering.TheVariants.{Less};
ghost use Rattle.rdb_base.specs.Order.{key_cmp};
ghost use Rattle.rdb_base.specs.Ranges.{in_range};
ghost use Rattle.partition_set.specs.Partitions.{IsPart, IsWithin};

use crate::tests::{gets_newest, no_changes, random_pairs, run_of, total_of};
use crate::{Partition, PartitionSet};
use rdb_base::{Change, Pair, Steps, compare_bytes};
use remix_build::build;
use remix_seek::{RunInMemory, Share};
use std::alloc::Global;
use std::marker::Brand;
use std::process::Abort;
use std::sync::ledger::{Blank, Ledger};
use std::test::Fail;

/// How many sets are tried.
const SETS: u64 = 40;

/// How many keys a partition has.
const PART_KEYS: u8 = 8;

/// Whether a key is in a range.
fn is_within(key: &[u8], low: &[u8], high: &[u8]) -> bool
    ensures { result ≡ in_range low.now (Some high.now) key.now }
{
    !compare_bytes(key, low).is_lt() && compare_bytes(key, high).is_lt()
}

/// Whether each key is in a range.
fn are_within(pairs: &[Pair], low: &[u8], high: &[u8]) -> bool
    ensures { result ≡ true → IsWithin low.now (Some high.now) pairs.now }
{
    let mut at: usize = 0;
    'pairs: while at < pairs.len() {
        let pair = &pairs[at];
        if !is_within(pair.key.as_bytes(), low, high) {
            return false;
        }
        at += 1;
    }
    true
}

/// The partition of two runs whose keys are in a range.
fn partition_between<L: Ledger>(
    alloc: Global,
    low: Vec<u8>,
    high: &[u8],
    newer: Vec<Pair>,
    older: Vec<Pair>,
    steps: &mut Steps<L>,
) -> Result<Partition<RunInMemory>, Fail>
    ensures part { IfOk result (λ part. IsPart (λ run. run) (Some high.now) part) }
    ensures low { IfOk result (λ part. part.low ≡ low.items) }
{
    if !are_within(newer.as_slice(), low.as_slice(), high) {
        return Err("a key out of the range")?;
    }
    if !are_within(older.as_slice(), low.as_slice(), high) {
        return Err("a key out of the range")?;
    }
    let runs = two_runs(alloc, run_of(newer)?, run_of(older)?)?;
    let remix = build(alloc, runs.as_slice(), steps)?;
    Ok(Partition {
        low,
        base: 7,
        runs,
        remix,
    })
}

fn two_runs(alloc: Global, newer: RunInMemory, older: RunInMemory) -> Result<Vec<RunInMemory>, Fail>
    ensures { IfOk result (λ runs. runs.items ≡ newer ∷ older ∷ []) }
{
    let mut runs = Vec::new(alloc);
    runs.push(newer)?;
    runs.push(older)?;
    Ok(runs)
}

/// The partition of two random runs of the keys from `first` on, whose changes are written down in `newest`.
fn random_partition<L: Ledger>(
    alloc: Global,
    state: &mut u64,
    first: u8,
    low: Vec<u8>,
    high: &[u8],
    newest: &mut [Option<Change>],
    steps: &mut Steps<L>,
) -> Result<Partition<RunInMemory>, Fail>
    ensures part { IfOk result (λ part. IsPart (λ run. run) (Some high.now) part) }
    ensures low { IfOk result (λ part. part.low ≡ low.items) }
{
    let older = random_pairs(alloc, state, first, newest)?;
    let newer = random_pairs(alloc, state, first, newest)?;
    partition_between(alloc, low, high, newer, older, steps)
}

/// The set of three partitions that follow one another. The keys of the last are below the bound `last`.
fn set_of_three(
    alloc: Global,
    first: Partition<RunInMemory>,
    second: Partition<RunInMemory>,
    third: Partition<RunInMemory>,
    last: &[u8],
) -> Result<PartitionSet<RunInMemory>, Fail>
    requires first { IsPart (λ run. run) (Some second.low) first }
    requires second { IsPart (λ run. run) (Some third.low) second }
    requires third { IsPart (λ run. run) (Some last.now) third }
    requires low { first.low ≡ [] }
    requires rise { key_cmp first.low second.low ≡ Less }
    requires rise_again { key_cmp second.low third.low ≡ Less }
{
    let mut parts = Vec::new(alloc);
    parts.push(first)?;
    parts.push(second)?;
    parts.push(third)?;
    Ok(PartitionSet::make(parts))
}

/// The newest changes of each partition's keys.
#[derive(Drop)]
struct Newest {
    first: Vec<Option<Change>>,
    second: Vec<Option<Change>>,
    third: Vec<Option<Change>>,
}

/// A set of random runs: the bounds are the empty one, 8 and 16.
fn random_set<L: Ledger>(
    alloc: Global,
    state: &mut u64,
    newest: &mut Newest,
    steps: &mut Steps<L>,
) -> Result<PartitionSet<RunInMemory>, Fail> {
    let changes = newest.first.as_mut_slice();
    let first = random_partition(alloc, state, 0, Vec::new(alloc), &[8], changes, steps)?;
    let eight = Vec::from_slice(alloc, &[8])?;
    let changes = newest.second.as_mut_slice();
    let second = random_partition(alloc, state, 8, eight, &[16], changes, steps)?;
    let sixteen = Vec::from_slice(alloc, &[16])?;
    let changes = newest.third.as_mut_slice();
    let third = random_partition(alloc, state, 16, sixteen, &[24], changes, steps)?;
    set_of_three(alloc, first, second, third, &[24])
}

/// The bounds of a partition, which has the base number 7 and two runs.
fn range_is(
    rt: &impl Abort,
    set: &PartitionSet<RunInMemory>,
    index: usize,
    low: &[u8],
    high: Option<&[u8]>,
) -> Result<(), Fail> {
    if index >= set.count() {
        return Err("no such partition")?;
    }
    let (begin, end) = set.bounds(index);
    assert_eq!(rt; begin, low);
    assert_eq!(rt; end, high);
    let part = set.part(index);
    assert_eq!(rt; part.low.as_slice(), low);
    assert_eq!(rt; (part.base, part.runs.len()), (7, 2));
    Ok(())
}

fn has_three_ranges(rt: &impl Abort, set: &PartitionSet<RunInMemory>) -> Result<(), Fail> {
    assert_eq!(rt; set.count(), 3);
    range_is(rt, set, 0, b"", Some([8].as_slice()))?;
    range_is(rt, set, 1, &[8], Some([16].as_slice()))?;
    range_is(rt, set, 2, &[16], None)
}

fn keys_are_of_their_ranges(rt: &impl Abort, set: &PartitionSet<RunInMemory>) {
    for (key, want) in [
        (b"".as_slice(), 0),
        (b"\x07\xFF", 0),
        (b"\x08", 1),
        (b"\x0F\xFF", 1),
        (b"\x10", 2),
        (b"\xFF", 2),
    ] {
        assert_eq!(rt; set.of_key(key), want);
    }
}

fn gets_all(
    rt: &(impl Abort + AllocGlobal),
    set: &PartitionSet<RunInMemory>,
    newest: &Newest,
) -> Result<(), Fail> {
    gets_newest(rt, set, 0, newest.first.as_slice())?;
    gets_newest(rt, set, 8, newest.second.as_slice())?;
    gets_newest(rt, set, 16, newest.third.as_slice())
}

fn sum_of_all(set: &PartitionSet<RunInMemory>) -> u128 {
    let mut total: u128 = 0;
    for index in 0..set.count() {
        total = total.saturating_add(total_of(set.part(index).runs.as_slice()));
    }
    total
}

fn compare_set<L: Ledger>(
    rt: &(impl Abort + AllocGlobal),
    state: &mut u64,
    steps: &mut Steps<L>,
) -> Result<(), Fail> {
    let alloc = rt.alloc();
    let mut newest = Newest {
        first: no_changes(alloc, PART_KEYS)?,
        second: no_changes(alloc, PART_KEYS)?,
        third: no_changes(alloc, PART_KEYS)?,
    };
    let set = random_set(alloc, state, &mut newest, steps)?;
    has_three_ranges(rt, &set)?;
    keys_are_of_their_ranges(rt, &set);
    assert_eq!(rt; set.total(), sum_of_all(&set));
    gets_all(rt, &set, &newest)?;
    is_shared(rt, set, &newest)
}

/// A set that is shared is equal, also when the other is gone.
fn is_shared(
    rt: &(impl Abort + AllocGlobal),
    set: PartitionSet<RunInMemory>,
    newest: &Newest,
) -> Result<(), Fail> {
    let copy = set.share(rt.alloc())?;
    drop(set);
    has_three_ranges(rt, &copy)?;
    gets_all(rt, &copy, newest)
}

fn compare_sets<L: Ledger>(rt: &(impl Abort + AllocGlobal), blank: Blank) -> Result<(), Fail>
    requires name { blank.name ≡ L.name }
    requires parts { blank.parts ≡ L.parts }
    requires some { 0 < blank.parts }
{
    let mut steps = Steps::<L>::begin(blank);
    let mut state = 1;
    for _set in 0..SETS {
        compare_set(rt, &mut state, &mut steps)?;
    }
    Ok(())
}

#[test]
fn each_key_of_three_partitions_has_the_newest_change(rt: HostRuntime) -> Result<(), Fail> {
    compare_sets::<Brand>(&rt, Blank::new(1))
}
