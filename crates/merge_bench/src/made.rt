//! The partition and the new pairs. Each key is in one run, a tenth of the keys in the next one too. Every other new key
//! is one of the partition's.
ghost use Rattle.std.specs.Prelude.{◌<◌, ◌≤◌, map, length, IfSome};
ghost use Rattle.remix_seek.specs.Indexes.{Indexes};

use crate::load::Merges;
use partition_merge::carry_out;
use partition_plan::Decision;
use partition_set::Partition;
use rdb_base::{Change, Key, Pair, SortedRun, Steps, Value};
use remix_build::build;
use remix_seek::RunInMemory;
use std::alloc::Global;
use std::sync::ledger::Ledger;

/// The bytes of a key, and of a value.
const KEY_LEN: usize = 16;

const VALUE_LEN: usize = 100;

/// The partition of all runs.
pub(crate) fn made_part<L: Ledger>(
    alloc: Global,
    load: &Merges,
    steps: &mut Steps<L>,
) -> Option<Partition<RunInMemory>>
    ensures { IfSome result (λ part. Indexes (map (λ run. run) part.runs) part.view part.anchors) }
{
    let mut runs = Vec::new(alloc);
    for run in 0..load.runs {
        runs.push(made_run(alloc, run, load)?).ok()?;
    }
    part_of(alloc, runs, steps)
}

/// The partition of these runs. None if they are more than 8, or it runs out of memory.
fn part_of<L: Ledger>(
    alloc: Global,
    runs: Vec<RunInMemory>,
    steps: &mut Steps<L>,
) -> Option<Partition<RunInMemory>>
    ensures { IfSome result (λ part. Indexes (map (λ run. run) part.runs) part.view part.anchors) }
{
    if runs.len() > 8 {
        return None;
    }
    let remix = build(alloc, runs.as_slice(), steps).ok()?;
    Some(Partition {
        low: Vec::new(alloc),
        base: 0,
        runs,
        remix,
    })
}

fn made_run(alloc: Global, run: u8, load: &Merges) -> Option<RunInMemory> {
    let mut pairs = Vec::new(alloc);
    for place in 0..load.keys {
        if is_in(place as u64, run as u64, load.runs as u64) {
            pairs
                .push(made_pair(alloc, place as u64, load.keys as u64, 0, run)?)
                .ok()?;
        }
    }
    RunInMemory::of(pairs)
}

/// The new pairs, spread over all keys. A partition of them alone, merged with none, has them as its rows.
pub(crate) fn new_run<L: Ledger>(
    alloc: Global,
    load: &Merges,
    steps: &mut Steps<L>,
) -> Option<SortedRun> {
    let mut pairs = Vec::new(alloc);
    let apart = load.keys as u64 / (load.new as u64).max(1);
    for place in 0..load.new {
        let pair = made_pair(alloc, place as u64 * apart, load.keys as u64, place % 2, 9)?;
        pairs.push(pair).ok()?;
    }
    let mut runs = Vec::new(alloc);
    runs.push(RunInMemory::of(pairs)?).ok()?;
    let part = part_of(alloc, runs, steps)?;
    let mut pieces = carry_out(alloc, &part, &SortedRun::new(alloc), Decision::Major).ok()?;
    pieces.pop()?.run
}

/// A pair at a place, of so many. Its key is that many above the number of the place.
fn made_pair(alloc: Global, place: u64, places: u64, above: u32, byte: u8) -> Option<Pair> {
    let number = (u64::MAX / places.max(1))
        .wrapping_mul(place)
        .wrapping_add(above as u64);
    let key = Key::try_new(alloc, &key_from(number)).ok()?;
    let filled = [((place % 256) as u8).wrapping_add(byte); VALUE_LEN];
    let value = Value::try_new(alloc, &filled).ok()?;
    Some(Pair {
        key,
        change: Change::Put(value),
    })
}

/// The key of a number: its bytes, the first of the highest place, and again.
fn key_from(number: u64) -> [u8; KEY_LEN] {
    let bytes = number.to_be_bytes();
    let mut key = [0; KEY_LEN];
    let (front, back) = key.split_at_mut(8);
    front.copy_from_slice(&bytes);
    back.copy_from_slice(&bytes);
    key
}

/// A number that looks random, of another.
fn mixed(number: u64) -> u64 {
    let once = (number ^ (number >> 30)).wrapping_mul(0xBF58_476D_1CE4_E5B9);
    let twice = (once ^ (once >> 27)).wrapping_mul(0x94D0_49BB_1331_11EB);
    twice ^ (twice >> 31)
}

/// Whether a run, of so many, has the key at a place.
fn is_in(place: u64, run: u64, runs: u64) -> bool {
    let drawn = mixed(place.wrapping_add(1));
    let first = drawn % runs.max(1);
    run == first || ((drawn >> 32) % 10 == 0 && run == (first + 1) % runs.max(1))
}
