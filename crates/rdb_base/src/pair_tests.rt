//! The pair field: worked examples both ways, and the place of each wrong field.
use crate::limits::{KEY_MAX, VALUE_MAX};
use crate::{
    Change, Key, LentChange, PairLimits, Value, compare_bytes, read_pair, size, write_pair,
};
use std::alloc::Global;
use std::cmp::Ordering;
use std::test::Fail;

const LIMITS: PairLimits = PairLimits {
    key_max: KEY_MAX,
    value_max: VALUE_MAX,
};

/// A deletion, or a put of a value.
fn change_of(alloc: Global, value: Option<&[u8]>) -> Result<Change, Fail> {
    match value {
        Some(bytes) => Ok(Change::Put(Value::try_new(alloc, bytes)?)),
        None => Ok(Change::Del),
    }
}

/// The value of a put.
fn value_in(change: LentChange<'_>) -> Option<&[u8]> {
    match change {
        LentChange::Put(value) => Some(value),
        LentChange::Del => None,
    }
}

/// A key, its value if it is no deletion, and their pair field.
const FIELDS: &[(&[u8], Option<&[u8]>, &[u8])] = &[
    (b"a", Some(b"1"), b"\x00\x01a\x00\x00\x00\x011"),
    (b"ab", None, b"\x00\x02ab\xFF\xFF\xFF\xFF"),
    (b"a", Some(b""), b"\x00\x01a\x00\x00\x00\x00"),
];

/// Whether these are the wanted bytes.
fn is_same(found: &[u8], want: &[u8]) -> bool {
    found == want
}

/// Whether a change has this value, or is a deletion where there is none.
fn has_value(change: LentChange<'_>, want: Option<&[u8]>) -> bool {
    match (value_in(change), want) {
        (Some(found), Some(want)) => found == want,
        (found, want) => found.is_none() && want.is_none(),
    }
}

/// The pair field of a key and a change, after `before`.
fn written(alloc: Global, key: &Key, change: &Change) -> Result<Vec<u8>, Fail> {
    let mut bytes = Vec::from_slice(alloc, b"before")?;
    write_pair(&mut bytes, key, change)?;
    Ok(bytes)
}

/// What stands after `before`.
fn field_in(bytes: &[u8]) -> &[u8] {
    let (_, field) = bytes.split_at(bytes.len().min(6));
    field
}

/// Whether a key and a change have this size.
fn has_size(key: &Key, change: &Change, want: usize) -> bool {
    size(key, change) == want as u64
}

/// Whether a key and a change are written as this field, which has their size.
fn is_written(alloc: Global, key: &Key, change: &Change, want: &[u8]) -> Result<bool, Fail> {
    let bytes = written(alloc, key, change)?;
    Ok(is_same(field_in(&bytes), want) && has_size(key, change, want.len()))
}

/// Whether the pair before `after` has this key and this value.
fn is_read(field: &[u8], key: &[u8], value: Option<&[u8]>) -> Result<bool, Fail> {
    let (pair, rest) = read_pair(LIMITS, field)?;
    Ok(is_same(pair.key, key) && has_value(pair.change, value) && is_same(rest, b"after"))
}

/// Whether a key and a change are written as this field, and read back where `after` stands behind it.
fn is_field(alloc: Global, key: &[u8], value: Option<&[u8]>, want: &[u8]) -> Result<bool, Fail> {
    let made = Key::try_new(alloc, key)?;
    let change = change_of(alloc, value)?;
    let mut bytes = written(alloc, &made, &change)?;
    bytes.extend_from_slice(b"after")?;
    Ok(is_written(alloc, &made, &change, want)? && is_read(field_in(&bytes), key, value)?)
}

#[test]
fn a_pair_is_written_and_read_back(rt: HostRuntime) -> Result<(), Fail> {
    for row in FIELDS.iter() {
        let (key, value, want) = *row;
        assert!(rt; is_field(rt.alloc(), key, value, want)?, "{want:?}");
    }
    Ok(())
}

/// Bytes that begin with no pair field, and the place of the first wrong field.
const WRONG: &[(&[u8], usize)] = &[
    (b"", 0),
    (b"\x00", 0),
    (b"\x00\x00\x00\x00\x00\x00", 0),
    (b"\x04\x01a", 0),
    (b"\x00\x02a", 2),
    (b"\x00\x01a\xFF\xFF\xFF", 3),
    (b"\x00\x01a\x00\x01\x00\x00", 3),
    (b"\x00\x01a\xFF\xFF\xFF\xFE", 3),
    (b"\x00\x01a\x00\x00\x00\x021", 7),
];

/// Whether the first wrong field is at this place.
fn is_wrong_at(bytes: &[u8], want: usize) -> bool {
    match read_pair(LIMITS, bytes) {
        Ok(_) => false,
        Err(bad) => bad.place(bytes.len()) == want,
    }
}

#[test]
fn a_wrong_field_is_told_by_its_place(rt: HostRuntime) -> Result<(), Fail> {
    for row in WRONG.iter() {
        let (bytes, want) = *row;
        assert!(rt; is_wrong_at(bytes, want), "{bytes:?}");
    }
    Ok(())
}

/// Whether two lists of bytes have this order.
fn is_order(left: &[u8], right: &[u8], want: Ordering) -> bool {
    compare_bytes(left, right) == want
}

#[test]
fn bytes_are_compared_unsigned(rt: HostRuntime) -> Result<(), Fail> {
    assert!(rt; is_order(b"", b"\x00", Ordering::Less));
    assert!(rt; is_order(b"\x80", b"\x7F", Ordering::Greater));
    assert!(rt; is_order(b"", b"", Ordering::Equal));
    Ok(())
}
