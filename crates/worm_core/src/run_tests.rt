//! Generated runs of the machine, each answer beside a plain map.
ghost use Rattle.std.specs.Prelude.{◌<◌};

use crate::tests::{has_no_step, stands_at, walk};
use crate::{LeafAnswer, LeafEvent, LeafWorld, LeafWorldError};
use rdb_base::{Change, Key, Pair, Value};
use std::alloc::Global;
use std::collections::BTreeMap;
use std::test::Fail;

/// How many runs there are, and how many events each has.
const RUNS: u64 = 200;

const EVENTS: u64 = 2_000;

/// How many walkers and keys a run has.
const WALKERS: u64 = 4;

const KEYS: u64 = 512;

/// A run: the machine, what was put in a plain map, each walker's key, and how often something happened.
#[derive(Drop)]
struct Run {
    world: LeafWorld,
    plain: BTreeMap<u64, u8>,
    keys: BTreeMap<u32, u64>,
    state: u64,
    splits: u64,
    published: u64,
    late: u64,
}

/// The next number of a generator, below a bound.
fn below(state: &mut u64, bound: u64) -> u64
    requires { 0 < bound }
    ensures { result < bound }
{
    *state = state
        .wrapping_mul(6_364_136_223_846_793_005)
        .wrapping_add(1_442_695_040_888_963_407);
    (*state >> 33) % bound
}

/// The key of a number: three letters of eight.
fn key_of(alloc: Global, number: u64) -> Result<Key, Fail> {
    let bytes = [
        b'a' + (number / 64 % 8) as u8,
        b'a' + (number / 8 % 8) as u8,
        b'a' + (number % 8) as u8,
    ];
    Ok(Key::try_new(alloc, &bytes)?)
}

/// Whether a change is the plain map's value; a deletion is 0 there.
fn is_plain(change: Option<&Change>, plain: Option<u8>) -> bool {
    match (change, plain) {
        (None, None) => true,
        (Some(Change::Del), Some(value)) => value == 0,
        (Some(Change::Put(put)), Some(value)) => value != 0 && put.as_bytes() == [value].as_slice(),
        _ => false,
    }
}

/// A walker enters with a random key.
fn enter(alloc: Global, run: &mut Run, walker: u32) -> Result<(), Fail> {
    let number = below(&mut run.state, KEYS);
    let key = key_of(alloc, number)?;
    if stands_at(alloc, &mut run.world, LeafEvent::Enter { walker, key })?.is_none() {
        return Err("not entered")?;
    }
    run.keys.insert(walker, number)?;
    Ok(())
}

/// A walker puts a random value, or a deletion, at its key.
fn put(alloc: Global, run: &mut Run, walker: u32) -> Result<(), Fail> {
    let number = run.keys.get(&walker).copied().unwrap_or(0);
    let value = below(&mut run.state, 4) as u8;
    let change = match value {
        0 => Change::Del,
        _ => Change::Put(Value::try_new(alloc, &[value])?),
    };
    let key = key_of(alloc, number)?;
    let pair = Pair { key, change };
    if !has_no_step(alloc, &mut run.world, LeafEvent::Put { walker, pair })? {
        run.plain.insert(number, value)?;
    }
    Ok(())
}

/// One of the first eight leaves is split, where it is full.
fn split(alloc: Global, run: &mut Run) -> Result<(), Fail> {
    let leaf = below(&mut run.state, 8) as u32;
    if !has_no_step(alloc, &mut run.world, LeafEvent::Split { leaf })? {
        run.splits = run.splits.wrapping_add(1);
    }
    Ok(())
}

/// A random number of splits is published, where it is one that may be.
fn publish(alloc: Global, run: &mut Run) -> Result<(), Fail> {
    let adds = below(&mut run.state, 16);
    let may = run.published <= adds && adds <= run.splits;
    if has_no_step(alloc, &mut run.world, LeafEvent::Publish { adds })? == may {
        return Err("published, or not")?;
    }
    if may {
        run.published = adds;
    }
    Ok(())
}

/// A walker answers with what the plain map has at its key, or it goes right.
fn answer(alloc: Global, run: &mut Run, walker: u32) -> Result<(), Fail> {
    let plain = match run.keys.get(&walker) {
        Some(number) => run.plain.get(number).copied(),
        None => return Ok(()),
    };
    match run.world.step(alloc, LeafEvent::Answer { walker }) {
        Ok(
            LeafAnswer::Found {
                leaf: _,
                change,
                rights,
            },
        ) => {
            if !is_plain(change.as_ref(), plain) {
                return Err("not what was put")?;
            }
            if rights > 0 {
                run.late = run.late.wrapping_add(1);
            }
            Ok(())
        }
        Ok(_) => Err("another answer")?,
        Err(LeafWorldError::Memory) => Err("out of memory")?,
        Err(LeafWorldError::NoStep { event: _ }) => go_right(alloc, run, walker),
    }
}

/// A walker whose leaf does not cover its key goes right.
fn go_right(alloc: Global, run: &mut Run, walker: u32) -> Result<(), Fail> {
    if stands_at(alloc, &mut run.world, LeafEvent::Right { walker })?.is_none() {
        return Err("stuck")?;
    }
    Ok(())
}

/// A random event.
fn happen(alloc: Global, run: &mut Run) -> Result<(), Fail> {
    let walker = below(&mut run.state, WALKERS) as u32;
    match below(&mut run.state, 16) {
        0 | 1 | 2 => enter(alloc, run, walker),
        3 | 4 | 5 | 6 | 7 => put(alloc, run, walker),
        8 => split(alloc, run),
        9 => publish(alloc, run),
        _ => answer(alloc, run, walker),
    }
}

/// Whether a new walker finds at each key what the plain map has.
fn all_agree(alloc: Global, run: &mut Run) -> Result<bool, Fail> {
    for number in 0..KEYS {
        walk(alloc, &mut run.world, 9, key_of(alloc, number)?)?;
        let Ok(
            LeafAnswer::Found {
                leaf: _,
                change,
                rights: _,
            },
        ) = run.world.step(alloc, LeafEvent::Answer { walker: 9 })
        else {
            return Ok(false);
        };
        if !is_plain(change.as_ref(), run.plain.get(&number).copied()) {
            return Ok(false);
        }
    }
    Ok(true)
}

/// A run of random events from a seed.
fn generated(alloc: Global, seed: u64) -> Result<Run, Fail> {
    let mut run = Run {
        world: LeafWorld::new(alloc),
        plain: BTreeMap::new(alloc),
        keys: BTreeMap::new(alloc),
        state: seed,
        splits: 0,
        published: 0,
        late: 0,
    };
    for _ in 0..EVENTS {
        happen(alloc, &mut run)?;
    }
    Ok(run)
}

#[test]
fn generated_runs_answer_as_a_plain_map(rt: HostRuntime) -> Result<(), Fail> {
    let alloc = rt.alloc();
    let mut splits = 0_u64;
    let mut late = 0_u64;
    for seed in 0..RUNS {
        let mut run = generated(alloc, seed)?;
        assert!(rt; all_agree(alloc, &mut run)?);
        splits = splits.wrapping_add(run.splits);
        late = late.wrapping_add(run.late);
    }
    // The runs are worth something: leaves were split, and walkers answered after they had gone right.
    assert!(rt; splits > 2 * RUNS);
    assert!(rt; late > 10 * RUNS);
    Ok(())
}
