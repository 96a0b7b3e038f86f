//! Random small sets of runs, with deletions and keys in several runs, beside a plain sort.
ghost use Rattle.std.specs.Prelude.{◌≡◌, ◌<◌};

use crate::build;
use crate::tests::run_of;
use rdb_base::{Change, Key, Pair, Steps, Value};
use remix_seek::{Remix, RunInMemory};
use remix_view::{Spot, Walk};
use std::alloc::Global;
use std::marker::Brand;
use std::process::Abort;
use std::sync::ledger::{Blank, Ledger};
use std::test::Fail;

/// How many sets of runs are tried, and how many keys there are.
const SETS: u64 = 300;

const KEYS: u8 = 40;

/// A version as the test knows it: number of its key, run, place in the run, and whether it is a deletion.
type Known = (u8, u8, u32, bool);

/// A number below n.
fn drawn(state: &mut u64, n: u64) -> u64
    requires { 0 < n }
    ensures { result < n }
{
    *state = state
        .wrapping_mul(6364136223846793005)
        .wrapping_add(1442695040888963407);
    (*state >> 33) % n
}

/// The bytes of a key, in the order of their numbers: 0, 0 7, 1, 1 7, and on.
fn key_of(alloc: Global, number: u8) -> Result<Key, Fail> {
    let bytes = [number / 2, 7];
    let (key, _) = bytes.split_at(1 + (number % 2) as usize);
    Ok(Key::try_new(alloc, key)?)
}

fn pair_of(alloc: Global, number: u8, del: bool) -> Result<Pair, Fail> {
    let key = key_of(alloc, number)?;
    let change = if del {
        Change::Del
    } else {
        Change::Put(Value::try_new(alloc, &[number])?)
    };
    Ok(Pair { key, change })
}

/// A random run, one in seven of which is empty. Its versions are added to those that are known.
fn random_run(
    alloc: Global,
    state: &mut u64,
    run: u8,
    known: &mut Vec<Known>,
) -> Result<RunInMemory, Fail> {
    let mut pairs = Vec::new(alloc);
    let mut place: u32 = 0;
    let rarity = drawn(state, 7);
    for number in 0..KEYS {
        if rarity > 0 && drawn(state, rarity) == 0 {
            let del = drawn(state, 4) == 0;
            pairs.push(pair_of(alloc, number, del)?)?;
            known.push((number, run, place, del))?;
            place = place.wrapping_add(1);
        }
    }
    run_of(pairs)
}

/// The whole walk is the plain sort.
fn walks_in_order(rt: &impl Abort, index: &Remix, known: &[Known]) {
    let mut walk = Walk::at(0, 0);
    let mut last = None;
    for (number, run, place, del) in known {
        let spot = Spot {
            run: *run,
            place: *place,
            old: last == Some(*number),
            del: *del,
        };
        assert_eq!(rt; walk.next(&index.view), Some(spot));
        last = Some(*number);
    }
    assert_eq!(rt; walk.next(&index.view), None);
}

/// What the plain sort has first at a key or above it.
fn first_from(known: &[Known], number: u8) -> Option<(u8, u32)> {
    for (other, run, place, _del) in known {
        if *other >= number {
            return Some((*run, *place));
        }
    }
    None
}

fn compare_set<L: Ledger>(
    rt: &(impl Abort + AllocGlobal),
    state: &mut u64,
    steps: &mut Steps<L>,
) -> Result<(), Fail> {
    let alloc = rt.alloc();
    let mut known = Vec::new(alloc);
    let mut runs = Vec::new(alloc);
    for run in 0..drawn(state, 9) {
        runs.push(random_run(alloc, state, run as u8, &mut known)?)?;
    }
    known.sort()?;
    if runs.len() > 8 {
        return Err("more than eight runs")?;
    }
    let index = build(alloc, runs.as_slice(), steps)?;
    walks_in_order(rt, &index, known.as_slice());
    for number in 0..KEYS {
        let key = key_of(alloc, number)?;
        let (segment, place) = index.seek(runs.as_slice(), key.as_bytes(), steps)?;
        let met = Walk::at(segment, place).next(&index.view);
        let met = met.map(|spot| (spot.run, spot.place));
        assert_eq!(rt; met, first_from(known.as_slice(), number));
    }
    Ok(())
}

fn compare_sets<L: Ledger>(rt: &(impl Abort + AllocGlobal), blank: Blank) -> Result<(), Fail>
    requires name { blank.name ≡ L.name }
    requires parts { blank.parts ≡ L.parts }
    requires some { 0 < blank.parts }
{
    let mut steps = Steps::<L>::begin(blank);
    let mut state = 1;
    for _set in 0..SETS {
        compare_set(rt, &mut state, &mut steps)?;
    }
    Ok(())
}

#[test]
fn random_runs_are_walked_and_sought_as_a_plain_sort(rt: HostRuntime) -> Result<(), Fail> {
    compare_sets::<Brand>(&rt, Blank::new(1))
}
