//! Worked walks over tables that are older than the leaves, and each event that has no step.
ghost use Rattle.std.specs.Prelude.{◌<◌};

use crate::{LEAVES_MAX, LeafAnswer, LeafEvent, LeafWorld, LeafWorldError};
use rdb_base::{Change, Key, Pair, Value};
use std::alloc::Global;
use std::test::Fail;

/// A prefix and two digits.
fn numbered(alloc: Global, prefix: &[u8], number: u8) -> Result<Key, Fail>
    requires { number < 100 }
{
    let mut bytes = Vec::from_slice(alloc, prefix)?;
    bytes.push(b'0' + number / 10)?;
    bytes.push(b'0' + number % 10)?;
    Ok(Key::try_new(alloc, bytes.as_slice())?)
}

/// A pair of this key with a value of one byte.
fn pair_of(alloc: Global, key: Key, value: u8) -> Result<Pair, Fail> {
    let change = Change::Put(Value::try_new(alloc, &[value])?);
    Ok(Pair { key, change })
}

/// Whether an event has no step; the error names event 0.
pub(crate) fn has_no_step(
    alloc: Global,
    world: &mut LeafWorld,
    event: LeafEvent,
) -> Result<bool, Fail> {
    match world.step(alloc, event) {
        Ok(_) => Ok(false),
        Err(LeafWorldError::NoStep { event }) => Ok(event == 0),
        Err(LeafWorldError::Memory) => Err("out of memory")?,
    }
}

/// The leaf that a walker stands on after an event.
pub(crate) fn stands_at(
    alloc: Global,
    world: &mut LeafWorld,
    event: LeafEvent,
) -> Result<Option<u32>, Fail> {
    match world.step(alloc, event) {
        Ok(LeafAnswer::At { leaf }) => Ok(Some(leaf)),
        Ok(_) => Err("another answer")?,
        Err(LeafWorldError::NoStep { event: _ }) => Ok(None),
        Err(LeafWorldError::Memory) => Err("out of memory")?,
    }
}

/// A walker enters with a key and goes right until its leaf covers the key. The answer is that leaf.
pub(crate) fn walk(
    alloc: Global,
    world: &mut LeafWorld,
    walker: u32,
    key: Key,
) -> Result<u32, Fail> {
    let Some(mut leaf) = stands_at(alloc, world, LeafEvent::Enter { walker, key })? else {
        return Err("not entered")?;
    };
    for _ in 0..LEAVES_MAX {
        match stands_at(alloc, world, LeafEvent::Right { walker })? {
            Some(right) => leaf = right,
            None => return Ok(leaf),
        }
    }
    Err("it never ends")?
}

/// Walker 0 walks to a key and puts it there. Where the leaf is full, it is split first; whether it was.
fn put(alloc: Global, world: &mut LeafWorld, key: Key) -> Result<bool, Fail> {
    let walker = 0;
    let leaf = walk(alloc, world, walker, key.try_copy(alloc)?)?;
    let pair = pair_of(alloc, key.try_copy(alloc)?, b'v')?;
    if !has_no_step(alloc, world, LeafEvent::Put { walker, pair })? {
        return Ok(false);
    }
    if has_no_step(alloc, world, LeafEvent::Split { leaf })? {
        return Err("not split")?;
    }
    walk(alloc, world, walker, key.try_copy(alloc)?)?;
    let pair = pair_of(alloc, key, b'v')?;
    if has_no_step(alloc, world, LeafEvent::Put { walker, pair })? {
        return Err("not put")?;
    }
    Ok(true)
}

/// Puts the keys of a prefix and 00 to 31. Whether no leaf was split.
fn puts_32(alloc: Global, world: &mut LeafWorld, prefix: &[u8]) -> Result<bool, Fail> {
    for number in 0..32 {
        if put(alloc, world, numbered(alloc, prefix, number)?)? {
            return Ok(false);
        }
    }
    Ok(true)
}

/// Whether a walker of its own enters with each of these keys at the leaf beside it.
fn enters_at(alloc: Global, world: &mut LeafWorld, wanted: &[(&[u8], u32)]) -> Result<bool, Fail> {
    for (bytes, want) in wanted {
        let key = Key::try_new(alloc, bytes)?;
        let event = LeafEvent::Enter { walker: 7, key };
        if stands_at(alloc, world, event)? != Some(*want) {
            return Ok(false);
        }
    }
    Ok(true)
}

/// Whether events all have a step.
fn happen(alloc: Global, world: &mut LeafWorld, events: Vec<LeafEvent>) -> Result<bool, Fail> {
    match world.run(alloc, events) {
        Ok(_) => Ok(true),
        Err(LeafWorldError::NoStep { event: _ }) => Ok(false),
        Err(LeafWorldError::Memory) => Err("out of memory")?,
    }
}

/// Whether walker 9 finds no change, in this leaf and after so many steps right.
fn finds_none(alloc: Global, world: &mut LeafWorld, want: u32, steps: u64) -> Result<bool, Fail> {
    match world.step(alloc, LeafEvent::Answer { walker: 9 }) {
        Ok(
            LeafAnswer::Found {
                leaf,
                change,
                rights,
            },
        ) => Ok(leaf == want && change.is_none() && rights == steps),
        _ => Ok(false),
    }
}

/// Leaf 0 is split at `d`, leaf 1 at `m`, leaf 2 at `t`.
fn split_three_times(alloc: Global, world: &mut LeafWorld) -> Result<bool, Fail> {
    let mut split = puts_32(alloc, world, b"a")?;
    for (leaf, prefix) in [(0, b"d".as_slice()), (1, b"m"), (2, b"t")] {
        split = split && puts_32(alloc, world, prefix)?;
        split = split && !has_no_step(alloc, world, LeafEvent::Split { leaf })?;
    }
    Ok(split)
}

#[test]
fn a_walker_of_an_old_table_goes_right_three_times(rt: HostRuntime) -> Result<(), Fail> {
    let alloc = rt.alloc();
    let mut world = LeafWorld::new(alloc);
    let walker = 9;
    let key = Key::try_new(alloc, b"z")?;
    assert_eq!(rt;
        stands_at(alloc, &mut world, LeafEvent::Enter { walker, key })?,
        Some(0)
    );
    assert!(rt; split_three_times(alloc, &mut world)?);
    for leaf in 1..4 {
        assert_eq!(rt;
            stands_at(alloc, &mut world, LeafEvent::Right { walker })?,
            Some(leaf)
        );
    }
    assert!(rt; finds_none(alloc, &mut world, 3, 3)?);
    assert!(rt; publish(alloc, &mut world, 3)?);
    let wanted: [(&[u8], u32); 6] = [
        (b"czz", 0),
        (b"d", 1),
        (b"lzz", 1),
        (b"m", 2),
        (b"szz", 2),
        (b"t", 3),
    ];
    assert!(rt; enters_at(alloc, &mut world, &wanted)?);
    Ok(())
}

/// Puts `aa00` to `aa31`, `ab00` to `ab31` and `abc00` to `abc32`. Whether `abc00` and `abc32` alone found a full leaf.
fn puts_in_order(alloc: Global, world: &mut LeafWorld) -> Result<bool, Fail> {
    let filled = puts_32(alloc, world, b"aa")? && puts_32(alloc, world, b"ab")?;
    let first = put(alloc, world, numbered(alloc, b"abc", 0)?)?;
    let others = puts_32(alloc, world, b"abc")?;
    let last = put(alloc, world, numbered(alloc, b"abc", 32)?)?;
    Ok(filled && first && others && last)
}

/// Publishes so many splits.
fn publish(alloc: Global, world: &mut LeafWorld, adds: u64) -> Result<bool, Fail> {
    let events = Vec::from_array(alloc, [LeafEvent::Publish { adds }])?;
    happen(alloc, world, events)
}

#[test]
fn keys_in_order_split_at_ab_and_abc(rt: HostRuntime) -> Result<(), Fail> {
    let alloc = rt.alloc();
    let mut world = LeafWorld::new(alloc);
    assert!(rt; puts_in_order(alloc, &mut world)?);
    assert!(rt; enters_at(alloc, &mut world, &[(b"abd", 0)])?);
    assert!(rt; publish(alloc, &mut world, 2)?);
    let wanted: [(&[u8], u32); 7] = [
        (b"aa", 0),
        (b"aazz", 0),
        (b"ab", 1),
        (b"abb", 1),
        (b"abbz", 1),
        (b"abc", 2),
        (b"abd", 2),
    ];
    assert!(rt; enters_at(alloc, &mut world, &wanted)?);
    assert!(rt; has_no_step(alloc, &mut world, LeafEvent::Split { leaf: 3 })?);
    Ok(())
}

/// A full leaf over all keys, where walker 1 stands with `k00` and walker 2 with a key that is not there.
fn full_world(alloc: Global) -> Result<LeafWorld, Fail> {
    let mut world = LeafWorld::new(alloc);
    if !puts_32(alloc, &mut world, b"k")? || !puts_32(alloc, &mut world, b"l")? {
        return Err("split")?;
    }
    walk(alloc, &mut world, 1, numbered(alloc, b"k", 0)?)?;
    walk(alloc, &mut world, 2, Key::try_new(alloc, b"z")?)?;
    Ok(world)
}

/// Whether a put of this key at a walker has no step.
fn is_no_put(
    alloc: Global,
    world: &mut LeafWorld,
    walker: u32,
    bytes: &[u8],
) -> Result<bool, Fail> {
    let pair = pair_of(alloc, Key::try_new(alloc, bytes)?, b'w')?;
    has_no_step(alloc, world, LeafEvent::Put { walker, pair })
}

/// Whether of these events just those have no step for which it is said.
fn have_no_step(
    alloc: Global,
    world: &mut LeafWorld,
    wanted: Vec<(LeafEvent, bool)>,
) -> Result<bool, Fail> {
    for (event, want) in wanted {
        if has_no_step(alloc, world, event)? != want {
            return Ok(false);
        }
    }
    Ok(true)
}

#[test]
fn a_put_wants_a_walker_its_key_and_room(rt: HostRuntime) -> Result<(), Fail> {
    let alloc = rt.alloc();
    let mut world = full_world(alloc)?;
    for (walker, bytes, want) in [
        (3, b"k00".as_slice(), true),
        (1, b"k01", true),
        (2, b"z", true),
        (1, b"k00", false),
    ] {
        assert_eq!(rt; is_no_put(alloc, &mut world, walker, bytes)?, want);
    }
    assert!(rt; !has_no_step(alloc, &mut world, LeafEvent::Split { leaf: 0 })?);
    // Leaf 0 has room again, and does not cover `z` any more.
    for (walker, bytes, want) in [(2, b"z".as_slice(), true), (1, b"k00", false)] {
        assert_eq!(rt; is_no_put(alloc, &mut world, walker, bytes)?, want);
    }
    Ok(())
}

#[test]
fn a_split_wants_a_full_leaf(rt: HostRuntime) -> Result<(), Fail> {
    let alloc = rt.alloc();
    let mut world = full_world(alloc)?;
    let wanted = [
        (LeafEvent::Split { leaf: 1 }, true),
        (LeafEvent::Split { leaf: 0 }, false),
        (LeafEvent::Split { leaf: 0 }, true),
    ];
    assert!(rt; have_no_step(alloc, &mut world, Vec::from_array(alloc, wanted)?)?);
    Ok(())
}

#[test]
fn a_publish_wants_as_many_as_before_and_no_more_than_there_are(
    rt: HostRuntime,
) -> Result<(), Fail> {
    let alloc = rt.alloc();
    let mut world = full_world(alloc)?;
    let wanted = [
        (LeafEvent::Publish { adds: 1 }, true),
        (LeafEvent::Split { leaf: 0 }, false),
        (LeafEvent::Publish { adds: 1 }, false),
        (LeafEvent::Publish { adds: 1 }, false),
        (LeafEvent::Publish { adds: 0 }, true),
        (LeafEvent::Publish { adds: u64::MAX }, true),
    ];
    assert!(rt; have_no_step(alloc, &mut world, Vec::from_array(alloc, wanted)?)?);
    Ok(())
}

#[test]
fn right_wants_a_leaf_that_does_not_cover_and_answer_one_that_does(
    rt: HostRuntime,
) -> Result<(), Fail> {
    let alloc = rt.alloc();
    let mut world = full_world(alloc)?;
    let wanted = [
        (LeafEvent::Right { walker: 3 }, true),
        (LeafEvent::Right { walker: 2 }, true),
        (LeafEvent::Answer { walker: 3 }, true),
        (LeafEvent::Answer { walker: 2 }, false),
        (LeafEvent::Split { leaf: 0 }, false),
        (LeafEvent::Answer { walker: 2 }, true),
        (LeafEvent::Right { walker: 2 }, false),
        (LeafEvent::Right { walker: 2 }, true),
    ];
    assert!(rt; have_no_step(alloc, &mut world, Vec::from_array(alloc, wanted)?)?);
    Ok(())
}

/// A put, an enter and a right step that has none, and an enter after it.
fn events(alloc: Global) -> Result<Vec<LeafEvent>, Fail> {
    let walker = 5;
    let key = numbered(alloc, b"k", 40)?;
    Ok(Vec::from_array(
        alloc,
        [
            LeafEvent::Enter {
                walker,
                key: key.try_copy(alloc)?,
            },
            LeafEvent::Answer { walker },
            LeafEvent::Right { walker },
            LeafEvent::Enter { walker: 6, key },
        ],
    )?)
}

#[test]
fn a_run_ends_at_the_event_without_a_step(rt: HostRuntime) -> Result<(), Fail> {
    let alloc = rt.alloc();
    let mut world = full_world(alloc)?;
    let Err(error) = world.run(alloc, events(alloc)?) else {
        return Err("each has a step")?;
    };
    assert!(rt; error == LeafWorldError::NoStep { event: 2 });
    assert!(rt; !has_no_step(alloc, &mut world, LeafEvent::Answer { walker: 5 })?);
    assert!(rt; has_no_step(alloc, &mut world, LeafEvent::Answer { walker: 6 })?);
    Ok(())
}

/// Puts keys from the last one of two bytes down, so many. They all come to leaf 0. How many splits there were.
fn fill(alloc: Global, world: &mut LeafWorld, keys: u16) -> Result<u64, Fail> {
    let mut splits = 0_u64;
    for number in 0..keys {
        let key = Key::try_new(alloc, &(u16::MAX - number).to_be_bytes())?;
        if put(alloc, world, key)? {
            splits = splits.wrapping_add(1);
        }
    }
    Ok(splits)
}

#[test]
fn there_are_1024_leaves_at_most(rt: HostRuntime) -> Result<(), Fail> {
    let alloc = rt.alloc();
    let mut world = LeafWorld::new(alloc);
    // Each split takes 32 pairs from leaf 0 for good, which is full at last.
    assert_eq!(rt; fill(alloc, &mut world, 32_800)?, 1_023);
    let below = (u16::MAX - 32_800).to_be_bytes();
    assert_eq!(rt;
        walk(alloc, &mut world, 1, Key::try_new(alloc, &below)?)?,
        0
    );
    assert!(rt; is_no_put(alloc, &mut world, 1, &below)?);
    assert!(rt; has_no_step(alloc, &mut world, LeafEvent::Split { leaf: 0 })?);
    // Leaf 1 is the last one, and nothing is published.
    assert_eq!(rt;
        walk(alloc, &mut world, 9, Key::try_new(alloc, &[255, 255, 0])?)?,
        1
    );
    assert!(rt; finds_none(alloc, &mut world, 1, 1_023)?);
    Ok(())
}
