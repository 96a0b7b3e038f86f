//! The bytes of each payload, written out by hand, and the place of each wrong field.
use crate::{
    Batch, EntryError, decode_entries, decode_header, encode_entries, encode_header, entry_len,
};
use rdb_base::{Change, Entry, Key, NUMBER_MAX, Value};
use std::alloc::Global;
use std::process::Abort;
use std::test::Fail;

/// Entry 0: caller 0, ordinal 0, PUT a=1.
const PUT: &[u8] = b"\x01\0\0\0\0\0\0\0\0\0\0\0\x01\0\0\0\0\0\0\0\0\0\0\0\0\0\x01a\0\0\0\x011";

/// Entry 5: caller 2, ordinal 7, DELETE of b.
const DELETE: &[u8] =
    b"\x01\0\0\0\0\0\0\0\x05\0\0\0\x01\0\0\0\x02\0\0\0\0\0\0\0\x07\0\x01b\xFF\xFF\xFF\xFF";

/// Segment 3, whose first entry is number 5.
const HEADER: &[u8] = b"\0\0\0\0\0\0\0\0\x03\0\0\0\0\0\0\0\x05";

fn put_of(alloc: Global, key: &[u8], value: &[u8]) -> Result<Entry, Fail> {
    Ok(Entry {
        caller: 0,
        ordinal: 0,
        key: Key::try_new(alloc, key)?,
        change: Change::Put(Value::try_new(alloc, value)?),
    })
}

fn delete_of(alloc: Global, key: &[u8]) -> Result<Entry, Fail> {
    Ok(Entry {
        caller: 2,
        ordinal: 7,
        key: Key::try_new(alloc, key)?,
        change: Change::Del,
    })
}

/// Whether these are the wanted bytes.
fn is_same(found: &[u8], want: &[u8]) -> bool {
    found == want
}

/// Whether this entry and no other is there.
fn is_alone(found: &[Entry], want: &[Entry; 1]) -> bool {
    found == want.as_slice()
}

/// Whether one entry with this number is spelled by these bytes.
fn encodes(alloc: Global, number: u64, entry: &[Entry; 1], want: &[u8]) -> Result<bool, Fail> {
    let payload = encode_entries(alloc, number, entry)?;
    Ok(is_same(payload.as_slice(), want))
}

/// Whether a payload is read as one entry with this number.
fn decodes(alloc: Global, payload: &[u8], number: u64, want: &[Entry; 1]) -> Result<bool, Fail> {
    let (first, entries) = decode_entries(alloc, payload)?;
    Ok(first == number && is_alone(entries.as_slice(), want))
}

#[test]
fn payloads_have_these_bytes(rt: HostRuntime) -> Result<(), Fail> {
    let put = [put_of(rt.alloc(), b"a", b"1")?];
    assert!(rt; encodes(rt.alloc(), 0, &put, PUT)?);
    assert!(rt; decodes(rt.alloc(), PUT, 0, &put)?);
    let delete = [delete_of(rt.alloc(), b"b")?];
    assert!(rt; encodes(rt.alloc(), 5, &delete, DELETE)?);
    assert!(rt; decodes(rt.alloc(), DELETE, 5, &delete)?);
    Ok(())
}

/// Whether the header of segment 3 that begins with number 5 is spelled by these bytes.
fn encodes_header(alloc: Global, want: &[u8]) -> Result<bool, Fail> {
    let payload = encode_header(alloc, 3, 5)?;
    Ok(is_same(payload.as_slice(), want))
}

/// Whether a payload is read as the header of segment 3 that begins with number 5.
fn decodes_header(payload: &[u8]) -> Result<bool, Fail> {
    let (segment, first) = decode_header(payload)?;
    Ok(segment == 3 && first == 5)
}

#[test]
fn a_header_has_these_bytes(rt: HostRuntime) -> Result<(), Fail> {
    assert!(rt; encodes_header(rt.alloc(), HEADER)?);
    assert!(rt; decodes_header(HEADER)?);
    Ok(())
}

/// A payload with these bytes from this place on, and no byte after them where `cut` says so.
fn changed(
    alloc: Global,
    payload: &[u8],
    at: usize,
    bytes: &[u8],
    cut: bool,
) -> Result<Vec<u8>, Fail> {
    let (before, rest) = payload.split_at(at.min(payload.len()));
    let mut made = Vec::from_slice(alloc, before)?;
    made.extend_from_slice(bytes)?;
    if !cut {
        let (_, after) = rest.split_at(bytes.len().min(rest.len()));
        made.extend_from_slice(after)?;
    }
    Ok(made)
}

/// Bytes of a payload from a place on, whether none follows them, and the place of the first wrong field.
type Wrong = (usize, &'static [u8], bool, usize);

const WRONG_ENTRIES: &[Wrong] = &[
    (0, b"", true, 0),
    (0, b"\x02", false, 0),
    (5, b"", true, 1),
    (12, b"", true, 9),
    (12, b"\0", false, 9),
    (1, b"\x40\0\0\0\0\0\0\0", false, 9),
    (16, b"", true, 13),
    (24, b"", true, 17),
    (26, b"\0", false, 25),
    (25, b"\x04\x01", false, 25),
    (28, b"\0\x01\0\0", false, 28),
    (31, b"\x02", false, 32),
    (33, b"\0", true, 33),
];

/// Whether the first wrong field of entries is at this place.
fn are_wrong_at(alloc: Global, payload: &[u8], want: usize) -> bool {
    match decode_entries(alloc, payload) {
        Err(EntryError::BadEntry { at }) => at == want,
        _ => false,
    }
}

#[test]
fn a_wrong_field_of_entries_is_told_by_its_place(rt: HostRuntime) -> Result<(), Fail> {
    for row in WRONG_ENTRIES.iter() {
        let (at, bytes, cut, place) = *row;
        let payload = changed(rt.alloc(), PUT, at, bytes, cut)?;
        assert!(rt;
            are_wrong_at(rt.alloc(), payload.as_slice(), place),
            "{place}"
        );
    }
    Ok(())
}

const WRONG_HEADERS: &[Wrong] = &[
    (0, b"", true, 0),
    (0, b"\x01", false, 0),
    (8, b"", true, 1),
    (16, b"", true, 9),
    (16, b"\x02", false, 9),
    (9, b"\x40\0\0\0\0\0\0\x01", false, 9),
    (17, b"\0", true, 17),
];

/// Whether the first wrong field of a header is at this place.
fn is_wrong_at(payload: &[u8], want: usize) -> bool {
    match decode_header(payload) {
        Err(EntryError::BadEntry { at }) => at == want,
        _ => false,
    }
}

#[test]
fn a_wrong_field_of_a_header_is_told_by_its_place(rt: HostRuntime) -> Result<(), Fail> {
    for row in WRONG_HEADERS.iter() {
        let (at, bytes, cut, place) = *row;
        let payload = changed(rt.alloc(), HEADER, at, bytes, cut)?;
        assert!(rt; is_wrong_at(payload.as_slice(), place), "{place}");
    }
    Ok(())
}

/// Adds the entry where the batch takes it.
fn add(rt: &(impl Abort + AllocGlobal), batch: &mut Batch, entry: &Entry) -> Result<(), Fail> {
    if batch.is_lent() || batch.pending() >= 1 << 29 || batch.end() >= NUMBER_MAX {
        return Err("the batch takes no entry")?;
    }
    batch.reserve(entry_len(entry))?;
    batch.push(entry);
    Ok(())
}

/// Whether so many bytes of entries are pending, and this is the number after the last one.
fn has(batch: &Batch, pending: usize, end: u64) -> bool {
    !batch.is_lent() && batch.pending() == pending && batch.end() == end
}

/// Lends the payload of a batch twice: once it comes back, and once the batch begins after it.
fn is_lent_twice(rt: &(impl Abort + AllocGlobal), batch: &mut Batch) -> Result<(), Fail> {
    if batch.is_lent() || batch.is_empty() {
        return Err("an entry was pushed")?;
    }
    let payload = batch.lend(Vec::new(rt.alloc()));
    assert!(rt; is_same(payload.as_slice(), DELETE));
    batch.put_back(payload);
    let _payload = batch.lend(Vec::new(rt.alloc()));
    batch.begin_again();
    Ok(())
}

/// Whether a batch has no entry, and begins with this number.
fn begins_at(batch: &Batch, number: u64) -> bool {
    batch.is_empty() && batch.end() == number
}

#[test]
fn a_batch_spells_what_was_pushed(rt: HostRuntime) -> Result<(), Fail> {
    let mut batch = Batch::new(rt.alloc(), 5);
    let entry = delete_of(rt.alloc(), b"b")?;
    add(&rt, &mut batch, &entry)?;
    assert!(rt; has(&batch, 19, 6));
    is_lent_twice(&rt, &mut batch)?;
    assert!(rt; begins_at(&batch, 6));
    Ok(())
}
