//! Worked splits, and tables that are full.
ghost use Rattle.std.specs.Prelude.{◌≡◌, ◌<◌, OnOk};
ghost use Rattle.leaf_table.specs.Chains.{HasRoomAt};

use crate::{LEAVES_MAX, LeafTable, SplitError};
use meta_trie::MetaTrie;
use rdb_base::{Change, KEY_MAX, Key, Pair, Steps, Value};
use std::alloc::Global;
use std::marker::Brand;
use std::sync::ledger::{Blank, Ledger};
use std::test::Fail;

/// Makes room for a change at a key: splits the key's leaf, where that is full.
fn make_room<L: Ledger>(
    alloc: Global,
    table: &mut LeafTable,
    key: &Key,
    steps: &mut Steps<L>,
) -> Result<(), SplitError>
    ensures { OnOk result (HasRoomAt table.new key.now) }
{
    if table.has_room(key, steps) {
        return Ok(());
    }
    table.split_at(alloc, key, steps)
}

/// Sets a pair, and answers whether its key was there.
fn counted_set<L: Ledger>(
    alloc: Global,
    table: &mut LeafTable,
    pair: Pair,
    blank: Blank,
) -> Result<bool, SplitError>
    requires name { blank.name ≡ L.name }
    requires parts { blank.parts ≡ L.parts }
    requires some { 0 < blank.parts }
{
    let mut steps = Steps::<L>::begin(blank);
    make_room(alloc, table, &pair.key, &mut steps)?;
    Ok(table.put_reserved(pair, &mut steps).is_some())
}

/// Sets a pair, on a ledger of its own.
fn set(alloc: Global, table: &mut LeafTable, pair: Pair) -> Result<bool, SplitError> {
    counted_set::<Brand>(alloc, table, pair, Blank::new(1))
}

/// The first byte of the value at a key.
fn counted_value<L: Ledger>(table: &LeafTable, key: &Key, blank: Blank) -> Option<u8>
    requires name { blank.name ≡ L.name }
    requires parts { blank.parts ≡ L.parts }
    requires some { 0 < blank.parts }
{
    let mut steps = Steps::<L>::begin(blank);
    match table.find(key, &mut steps) {
        Some(Change::Put(value)) => value.as_bytes().first().copied(),
        _ => None,
    }
}

/// The first byte of the value at a key of these bytes, on a ledger of its own.
fn value_at(alloc: Global, table: &LeafTable, key: &[u8]) -> Result<Option<u8>, Fail> {
    let key = Key::try_new(alloc, key)?;
    Ok(counted_value::<Brand>(table, &key, Blank::new(1)))
}

/// The number of the leaf that the trie gives for a key.
fn counted_leaf<L: Ledger>(table: &LeafTable, key: &[u8], blank: Blank) -> u32
    requires name { blank.name ≡ L.name }
    requires parts { blank.parts ≡ L.parts }
    requires some { 0 < blank.parts }
{
    let mut steps = Steps::<L>::begin(blank);
    table.trie.find(key, &mut steps)
}

fn leaf_of(table: &LeafTable, key: &[u8]) -> u32 {
    counted_leaf::<Brand>(table, key, Blank::new(1))
}

/// A pair of a key of these bytes and a value of one byte.
fn pair_of(alloc: Global, key: &[u8], value: u8) -> Result<Pair, Fail> {
    Ok(Pair {
        key: Key::try_new(alloc, key)?,
        change: Change::Put(Value::try_new(alloc, &[value])?),
    })
}

/// The key `k` and two digits.
fn numbered(number: u8) -> [u8; 3]
    requires { number < 100 }
{
    [b'k', b'0' + number / 10, b'0' + number % 10]
}

/// A table of the keys `k00` to `k64`, each with the value `v`, put in this order.
fn sixty_five(alloc: Global) -> Result<LeafTable, Fail> {
    let mut table = LeafTable::make(alloc)?;
    for number in 0..65 {
        let pair = pair_of(alloc, &numbered(number), b'v')?;
        set(alloc, &mut table, pair)?;
    }
    Ok(table)
}

/// All pairs of a table, moved out. It begins anew.
fn moved(alloc: Global, table: &mut LeafTable) -> Result<Vec<Pair>, Fail> {
    let mut run = Vec::with_capacity(alloc, table.len())?;
    let trie = MetaTrie::make(alloc)?;
    table.move_into(&mut run, trie);
    Ok(run)
}

/// Whether the keys of these pairs rise.
fn rise(pairs: &[Pair]) -> bool {
    pairs.windows(2).all(|two| two[0].key < two[1].key)
}

#[test]
fn the_sixty_fifth_put_splits_at_k32(rt: HostRuntime) -> Result<(), Fail> {
    let alloc = rt.alloc();
    let table = sixty_five(alloc)?;
    assert_eq!(rt; (table.leaves(), table.len()), (2, 65));
    assert_eq!(rt; (leaf_of(&table, b"k31"), leaf_of(&table, b"k32")), (0, 1));
    assert_eq!(rt; value_at(alloc, &table, b"k40")?, Some(b'v'));
    assert_eq!(rt; value_at(alloc, &table, b"k65")?, None);
    Ok(())
}

#[test]
fn a_table_that_was_emptied_is_filled_again(rt: HostRuntime) -> Result<(), Fail> {
    let alloc = rt.alloc();
    let mut table = sixty_five(alloc)?;
    let run = moved(alloc, &mut table)?;
    assert!(rt; run.len() == 65 && rise(&run));
    assert!(rt; table.is_empty() && table.leaves() == 1);
    for (key, value, there) in [
        (b"k40", b'a', false),
        (b"k07", b'b', false),
        (b"k40", b'c', true),
    ] {
        let pair = pair_of(alloc, key, value)?;
        assert_eq!(rt; set(alloc, &mut table, pair)?, there);
    }
    assert_eq!(rt; value_at(alloc, &table, b"k40")?, Some(b'c'));
    assert_eq!(rt; table.len(), 2);
    Ok(())
}

/// Sets rising keys of four bytes until a leaf is not split, and answers whether the table is full then.
fn fill_leaves(alloc: Global, table: &mut LeafTable) -> Result<bool, Fail> {
    for number in 0..40_000_u32 {
        let pair = pair_of(alloc, &number.to_be_bytes(), 0)?;
        if let Err(error) = set(alloc, table, pair) {
            return Ok(matches!(error, SplitError::Full));
        }
    }
    Ok(false)
}

#[test]
fn rising_keys_use_up_the_leaves(rt: HostRuntime) -> Result<(), Fail> {
    let alloc = rt.alloc();
    let mut table = LeafTable::make(alloc)?;
    assert!(rt; fill_leaves(alloc, &mut table)?);
    assert_eq!(rt; (table.leaves(), table.len()), (LEAVES_MAX, 32_800));
    Ok(())
}

/// Sets keys of 1,024 bytes until a leaf is not split, and answers whether the table is full then. There are 65 keys for
/// each first byte, and they differ in the last one.
fn fill_trie(alloc: Global, table: &mut LeafTable) -> Result<bool, Fail> {
    let mut bytes = [b'x'; KEY_MAX];
    for number in 0..16_640_u32 {
        bytes[0] = (number / 65) as u8;
        bytes[KEY_MAX - 1] = (number % 65) as u8;
        let pair = pair_of(alloc, &bytes, 0)?;
        if let Err(error) = set(alloc, table, pair) {
            return Ok(matches!(error, SplitError::Full));
        }
    }
    Ok(false)
}

#[test]
fn long_keys_use_up_the_nodes(rt: HostRuntime) -> Result<(), Fail> {
    let alloc = rt.alloc();
    let mut table = LeafTable::make(alloc)?;
    assert!(rt; fill_trie(alloc, &mut table)?);
    let full = (table.leaves(), table.len());
    assert!(rt; full.0 < LEAVES_MAX);
    assert!(rt; fill_trie(alloc, &mut table)?);
    assert_eq!(rt; (table.leaves(), table.len()), full);
    Ok(())
}
