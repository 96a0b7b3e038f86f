//! The limits, the order and the copies, each public call once with ample memory.
ghost use Rattle.std.specs.Prelude.{◌≡◌, ◌<◌};

use crate::{Change, Entry, Key, KeyError, Row, Steps, Value, ValueError};
use std::alloc::Global;
use std::cmp::Ordering;
use std::marker::Brand;
use std::sync::ledger::{Blank, Ledger};
use std::test::Fail;

/// Whether these are the wanted bytes.
fn is_same(found: &[u8], want: &[u8]) -> bool {
    found == want
}

/// Whether so many bytes make a key, which gives them back.
fn is_key(alloc: Global, len: usize) -> Result<bool, Fail> {
    let bytes = Vec::from_elem(alloc, 0x6B, len)?;
    let key = Key::try_new(alloc, &bytes)?;
    Ok(is_same(key.as_bytes(), &bytes))
}

/// Whether so many bytes are refused as a key, with their number.
fn is_bad_key(alloc: Global, len: usize) -> Result<bool, Fail> {
    let bytes = Vec::from_elem(alloc, 0x6B, len)?;
    match Key::try_new(alloc, &bytes) {
        Err(KeyError::BadKey { len: told }) => Ok(told == len),
        _ => Ok(false),
    }
}

#[test]
fn a_key_has_1_to_1024_bytes(rt: HostRuntime) -> Result<(), Fail> {
    assert!(rt; is_bad_key(rt.alloc(), 0)?);
    assert!(rt; is_key(rt.alloc(), 1)?);
    assert!(rt; is_key(rt.alloc(), 1024)?);
    assert!(rt; is_bad_key(rt.alloc(), 1025)?);
    Ok(())
}

/// Whether so many bytes make a value, which gives them back.
fn is_value(alloc: Global, len: usize) -> Result<bool, Fail> {
    let bytes = Vec::from_elem(alloc, 0x76, len)?;
    let value = Value::try_new(alloc, &bytes)?;
    Ok(is_same(value.as_bytes(), &bytes))
}

/// Whether so many bytes are refused as a value, with their number.
fn is_bad_value(alloc: Global, len: usize) -> Result<bool, Fail> {
    let bytes = Vec::from_elem(alloc, 0x76, len)?;
    match Value::try_new(alloc, &bytes) {
        Err(ValueError::BadValue { len: told }) => Ok(told == len),
        _ => Ok(false),
    }
}

#[test]
fn a_value_has_up_to_65535_bytes(rt: HostRuntime) -> Result<(), Fail> {
    assert!(rt; is_value(rt.alloc(), 0)?);
    assert!(rt; is_value(rt.alloc(), 65535)?);
    assert!(rt; is_bad_value(rt.alloc(), 65536)?);
    Ok(())
}

fn order_of<L: Ledger>(blank: Blank, left: &Key, right: &Key) -> Ordering
    requires name { blank.name ≡ L.name }
    requires parts { blank.parts ≡ L.parts }
    requires some { 0 < blank.parts }
{
    let mut steps = Steps::<L>::begin(blank);
    left.compare(right, &mut steps)
}

/// Whether the keys of these bytes have this order.
fn is_order(alloc: Global, left: &[u8], right: &[u8], want: Ordering) -> Result<bool, Fail> {
    let left = Key::try_new(alloc, left)?;
    let right = Key::try_new(alloc, right)?;
    Ok(order_of::<Brand>(Blank::new(1), &left, &right) == want)
}

/// Two keys and their order.
const ORDERS: &[(&[u8], &[u8], Ordering)] = &[
    (b"a", b"ab", Ordering::Less),
    (b"b", b"ab", Ordering::Greater),
    (b"\x7F", b"\x80", Ordering::Less),
    (b"\xFF", b"\x00\x00", Ordering::Greater),
    (b"a\x00", b"a", Ordering::Greater),
    (b"ab", b"ab", Ordering::Equal),
    (b"12345678", b"123456789", Ordering::Less),
    (b"\x00234567\xFF", b"\xFF234567\x00", Ordering::Less),
    (
        b"12345678901234567890\x80",
        b"12345678901234567890\x7F",
        Ordering::Greater,
    ),
    (b"1234567812345678", b"1234567812345678", Ordering::Equal),
];

#[test]
fn keys_are_ordered_by_unsigned_bytes(rt: HostRuntime) -> Result<(), Fail> {
    for row in ORDERS.iter() {
        let (left, right, want) = *row;
        assert!(rt;
            is_order(rt.alloc(), left, right, want)?,
            "{left:?} and {right:?}"
        );
    }
    Ok(())
}

fn row_of(alloc: Global) -> Result<Row, Fail> {
    let key = Key::try_new(alloc, b"user:00000001")?;
    let value = Value::try_new(alloc, b"31")?;
    Ok(Row { key, value })
}

/// Whether a row's copy is equal.
fn is_row_copied(alloc: Global, row: &Row) -> Result<bool, Fail> {
    Ok(row.try_copy(alloc)? == *row)
}

/// Whether a key's copy has these bytes.
fn is_key_copied(alloc: Global, key: &Key, want: &[u8]) -> Result<bool, Fail> {
    Ok(is_same(key.try_copy(alloc)?.as_bytes(), want))
}

/// Whether a value's copy has these bytes.
fn is_value_copied(alloc: Global, value: &Value, want: &[u8]) -> Result<bool, Fail> {
    Ok(is_same(value.try_copy(alloc)?.as_bytes(), want))
}

#[test]
fn copies_are_equal(rt: HostRuntime) -> Result<(), Fail> {
    let row = row_of(rt.alloc())?;
    assert!(rt; is_row_copied(rt.alloc(), &row)?);
    assert!(rt; is_key_copied(rt.alloc(), &row.key, b"user:00000001")?);
    assert!(rt; is_value_copied(rt.alloc(), &row.value, b"31")?);
    let Row { key, value } = row;
    assert!(rt; is_entry_copied(rt.alloc(), &key, &Change::Del)?);
    assert!(rt; is_entry_copied(rt.alloc(), &key, &Change::Put(value))?);
    Ok(())
}

/// The entry of a key and a change, which are copied.
fn entry_of(alloc: Global, key: &Key, change: &Change) -> Result<Entry, Fail> {
    Ok(Entry {
        caller: 3,
        ordinal: 4,
        key: key.try_copy(alloc)?,
        change: change.try_copy(alloc)?,
    })
}

/// Whether a change's copy is equal, and then that of an entry that has it.
fn is_entry_copied(alloc: Global, key: &Key, change: &Change) -> Result<bool, Fail> {
    let entry = entry_of(alloc, key, change)?;
    Ok(entry.change == *change && entry.try_copy(alloc)? == entry)
}
