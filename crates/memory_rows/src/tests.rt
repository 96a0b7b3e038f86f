//! Each public call once with ample memory, the worked splits, and rows beside a plain ordered map until each limit is
//! reached.
ghost use Rattle.std.specs.Prelude.{◌<◌};

use crate::{MERGE_SIZE, MemoryRows};
use rdb_base::{Change, Key, Pair, Value};
use std::alloc::Global;
use std::collections::BTreeMap;
use std::test::Fail;

/// How the bytes of a numbered key are made.
#[derive(Clone, Copy)]
enum Shape {
    /// Up to four times `a`, and the number: lengths of 4 to 8 bytes.
    Mixed,
    /// 1,020 bytes alike for 32 numbers each, and the number: each split's anchor is a long one.
    Long,
}

/// A key of this shape.
fn key_of(alloc: Global, shape: Shape, number: u32) -> Result<Key, Fail> {
    let mut bytes = Vec::new(alloc);
    match shape {
        Shape::Mixed => bytes.resize(number as usize % 5, b'a')?,
        Shape::Long => {
            bytes.extend_from_slice(&(number.wrapping_add(16) / 32).to_be_bytes())?;
            bytes.resize(1_020, b'-')?;
        }
    }
    bytes.extend_from_slice(&number.to_be_bytes())?;
    Ok(Key::try_new(alloc, bytes.as_slice())?)
}

/// A put of a value of so many bytes, or a deletion.
fn change_of(alloc: Global, len: Option<usize>) -> Result<Change, Fail> {
    match len {
        None => Ok(Change::Del),
        Some(len) => {
            let mut bytes = Vec::new(alloc);
            bytes.resize(len, b'v')?;
            Ok(Change::Put(Value::try_new(alloc, bytes.as_slice())?))
        }
    }
}

/// How long the value of a change is, if there is a change, and if it gives one.
fn len_of(change: Option<&Change>) -> Option<Option<usize>> {
    match change {
        Some(Change::Put(value)) => Some(Some(value.as_bytes().len())),
        Some(Change::Del) => Some(None),
        None => None,
    }
}

/// Rows, and beside them a plain ordered map from each key's number to the length of its value.
#[derive(Drop)]
struct Both {
    rows: MemoryRows,
    plain: BTreeMap<u32, Option<usize>>,
    /// How often the rows were merged.
    merges: u32,
}

impl Both {
    fn make(alloc: Global) -> Result<Both, Fail> {
        Ok(Both {
            rows: MemoryRows::make(alloc)?,
            plain: BTreeMap::new(alloc),
            merges: 0,
        })
    }

    /// Sets a change in both.
    fn set(
        &mut self,
        alloc: Global,
        shape: Shape,
        number: u32,
        len: Option<usize>,
    ) -> Result<(), Fail> {
        let key = key_of(alloc, shape, number)?;
        let change = change_of(alloc, len)?;
        let before = self.rows.weight;
        self.rows.reserve(alloc, &key)?;
        if self.rows.weight < before {
            self.merges = self.merges.wrapping_add(1);
        }
        self.rows.set_reserved(Pair { key, change });
        self.plain.insert(number, len)?;
        Ok(())
    }

    /// Whether both have the same at a key.
    fn agree_at(&self, alloc: Global, shape: Shape, number: u32) -> Result<bool, Fail> {
        let key = key_of(alloc, shape, number)?;
        let found = len_of(self.rows.find(&key));
        Ok(found == self.plain.get(&number).copied())
    }

    /// Fails unless both have the same at each number below this one.
    fn agree_below(&self, alloc: Global, shape: Shape, numbers: u32) -> Result<(), Fail> {
        for number in 0..numbers {
            if !self.agree_at(alloc, shape, number)? {
                return Err("another change")?;
            }
        }
        Ok(())
    }
}

/// A number that looks random, after another one.
fn next_random(random: u64) -> u64 {
    random
        .wrapping_mul(6_364_136_223_846_793_005)
        .wrapping_add(1_442_695_040_888_963_407)
}

/// What is done with a random number of a number: a third are deletions, the others are puts of up to so many bytes.
fn len_from(random: u64, most: usize) -> Option<usize> {
    if random / 65_536 % 3 == 0 {
        return None;
    }
    Some((random / 1_048_576) as usize % most.max(1))
}

/// So many random updates of so many keys, each asked for before and after. How often it merged.
fn random_load(alloc: Global, keys: u32, times: u32, most: usize) -> Result<u32, Fail> {
    let mut both = Both::make(alloc)?;
    let mut random: u64 = 1;
    for _ in 0..times {
        random = next_random(random);
        let number = (random / 4_294_967_296 % keys.max(1) as u64) as u32;
        let before = both.agree_at(alloc, Shape::Mixed, number)?;
        both.set(alloc, Shape::Mixed, number, len_from(random, most))?;
        let after = both.agree_at(alloc, Shape::Mixed, number)?;
        if !(before && after) {
            return Err("another change")?;
        }
    }
    both.agree_below(alloc, Shape::Mixed, keys)?;
    Ok(both.merges)
}

/// Puts each key below a number, rising or falling, then deletes each third. How often it merged.
fn ordered_load(alloc: Global, shape: Shape, keys: u32, falling: bool) -> Result<u32, Fail> {
    let mut both = Both::make(alloc)?;
    for at in 0..keys {
        let number = if falling { keys - 1 - at } else { at };
        both.set(alloc, shape, number, Some(1))?;
    }
    for number in 0..keys / 3 {
        both.set(alloc, shape, number, None)?;
    }
    both.agree_below(alloc, shape, keys)?;
    Ok(both.merges)
}

#[test]
fn what_was_put_or_deleted_is_found(rt: HostRuntime) -> Result<(), Fail> {
    let mut both = Both::make(rt.alloc())?;
    both.set(rt.alloc(), Shape::Mixed, 7, Some(3))?;
    both.set(rt.alloc(), Shape::Mixed, 8, None)?;
    both.set(rt.alloc(), Shape::Mixed, 7, Some(2))?;
    both.agree_below(rt.alloc(), Shape::Mixed, 10)?;
    assert_eq!(rt; both.rows.weight, 15 + 13 + 14);
    Ok(())
}

/// The key of two digits after a `k`.
fn two_digits(alloc: Global, number: u8) -> Result<Key, Fail>
    requires { number < 100 }
{
    Ok(Key::try_new(alloc, &[b'k', b'0' + number / 10, b'0' + number % 10])?)
}

#[test]
fn the_65th_key_splits_the_leaf(rt: HostRuntime) -> Result<(), Fail> {
    let mut rows = MemoryRows::make(rt.alloc())?;
    for number in 0..65 {
        let key = two_digits(rt.alloc(), number)?;
        let change = change_of(rt.alloc(), Some(1))?;
        rows.reserve(rt.alloc(), &key)?;
        rows.set_reserved(Pair { key, change });
    }
    assert_eq!(rt; rows.table.leaves(), 2);
    assert_eq!(rt;
        len_of(rows.find(&two_digits(rt.alloc(), 40)?)),
        Some(Some(1))
    );
    Ok(())
}

#[test]
fn rows_beside_a_plain_map_through_merges_by_size(rt: HostRuntime) -> Result<(), Fail> {
    let merges = random_load(rt.alloc(), 500, 20_000, 2_000)?;
    assert_eq!(rt; merges, 3);
    Ok(())
}

#[test]
fn rows_beside_a_plain_map_through_merges_by_leaves(rt: HostRuntime) -> Result<(), Fail> {
    for falling in [false, true] {
        let merges = ordered_load(rt.alloc(), Shape::Mixed, 36_000, falling)?;
        assert_eq!(rt; merges, 1);
    }
    Ok(())
}

#[test]
fn rows_beside_a_plain_map_through_merges_by_the_trie(rt: HostRuntime) -> Result<(), Fail> {
    let merges = ordered_load(rt.alloc(), Shape::Long, 2_200, false)?;
    assert_eq!(rt; merges, 1);
    Ok(())
}

#[test]
fn one_key_for_ever_holds_one_pair(rt: HostRuntime) -> Result<(), Fail> {
    let mut both = Both::make(rt.alloc())?;
    for _ in 0..200 {
        both.set(rt.alloc(), Shape::Mixed, 1, Some(65_000))?;
    }
    assert_eq!(rt; both.merges, 3);
    assert_eq!(rt; both.rows.older.len(), 1);
    assert!(rt; both.rows.weight < MERGE_SIZE);
    Ok(())
}
