//! The bytes of a store, written out by hand; a store that is opened again; and what is no log, refused by name. Failing
//! device calls and crashes are tried in the program's tests, and long random sessions in the client's.

use crate::{Found, OpenError, StorePass};
use disk_model::MemoryStrip;
use rdb_base::{Key, Value};
use std::alloc::Global;
use std::test::Fail;

/// Segment 0 with the header that begins with number 0, PUT a=1 as entry 0, and a closed gate.
const ONE: &[u8] =
    b"\xA5\0\0\0\x11\0\0\0\0\0\0\0\0\0\0\0\0\0\0\0\0\0\xA5\0\0\0\x21\x01\0\0\0\0\0\0\0\0\0\0\0\x01\0\0\0\0\0\0\0\0\0\0\0\0\0\x01a\0\0\0\x011\0";

/// The same with PUT b=2 as entry 1, the second of its caller, in a frame of its own.
const TWO: &[u8] =
    b"\xA5\0\0\0\x11\0\0\0\0\0\0\0\0\0\0\0\0\0\0\0\0\0\xA5\0\0\0\x21\x01\0\0\0\0\0\0\0\0\0\0\0\x01\0\0\0\0\0\0\0\0\0\0\0\0\0\x01a\0\0\0\x011\xA5\0\0\0\x21\x01\0\0\0\0\0\0\0\x01\0\0\0\x01\0\0\0\0\0\0\0\0\0\0\0\0\0\x01b\0\0\0\x012\0";

/// The header, DELETE a as entry 0, and a closed gate.
const DELETED: &[u8] =
    b"\xA5\0\0\0\x11\0\0\0\0\0\0\0\0\0\0\0\0\0\0\0\0\0\xA5\0\0\0\x20\x01\0\0\0\0\0\0\0\0\0\0\0\x01\0\0\0\0\0\0\0\0\0\0\0\0\0\x01a\xFF\xFF\xFF\xFF\0";

/// ONE, and after it, in one frame, two deletions of a as entries 1 and 2.
const TWICE_DELETED: &[u8] =
    b"\xA5\0\0\0\x11\0\0\0\0\0\0\0\0\0\0\0\0\0\0\0\0\0\xA5\0\0\0\x21\x01\0\0\0\0\0\0\0\0\0\0\0\x01\0\0\0\0\0\0\0\0\0\0\0\0\0\x01a\0\0\0\x011\xA5\0\0\0\x33\x01\0\0\0\0\0\0\0\x01\0\0\0\x02\0\0\0\0\0\0\0\0\0\0\0\0\0\x01a\xFF\xFF\xFF\xFF\0\0\0\0\0\0\0\0\0\0\0\x01\0\x01a\xFF\xFF\xFF\xFF\0";

/// A call of a store, and what it is to answer.
#[derive(Clone, Copy)]
enum Call {
    /// A put of this value at this key has this number.
    Put(&'static [u8], &'static [u8], u64),
    /// A deletion of this key has this number.
    Delete(&'static [u8], u64),
    /// A get of this key has this front, and this value or none.
    Get(&'static [u8], u64, Option<&'static [u8]>),
    /// A sync has this front.
    Sync(u64),
    /// The rows in memory have a change at this key, be it a deletion, or none.
    Find(&'static [u8], bool),
}

fn put(
    alloc: Global,
    pass: &mut StorePass<MemoryStrip>,
    key: &[u8],
    value: &[u8],
) -> Result<u64, Fail> {
    let key = Key::try_new(alloc, key)?;
    let value = Value::try_new(alloc, value)?;
    Ok(pass.put(alloc, key, value)?)
}

fn delete(alloc: Global, pass: &mut StorePass<MemoryStrip>, key: &[u8]) -> Result<u64, Fail> {
    let key = Key::try_new(alloc, key)?;
    Ok(pass.delete(alloc, key)?)
}

fn get(alloc: Global, pass: &StorePass<MemoryStrip>, key: &[u8]) -> Result<Found, Fail> {
    let key = Key::try_new(alloc, key)?;
    Ok(pass.get(alloc, &key)?)
}

fn sync(alloc: Global, pass: &mut StorePass<MemoryStrip>) -> Result<u64, Fail> {
    Ok(pass.sync(alloc)?)
}

fn find(alloc: Global, pass: &StorePass<MemoryStrip>, key: &[u8]) -> Result<bool, Fail> {
    let key = Key::try_new(alloc, key)?;
    Ok(pass.map.find(&key).is_some())
}

fn is_found(found: &Found, front: u64, wanted: Option<&[u8]>) -> bool {
    let value = match (&found.value, wanted) {
        (Some(value), Some(wanted)) => value.as_bytes() == wanted,
        (found, wanted) => found.is_none() && wanted.is_none(),
    };
    value && found.front == front
}

/// Whether the call answers so.
fn answers(alloc: Global, pass: &mut StorePass<MemoryStrip>, call: &Call) -> Result<bool, Fail> {
    match call {
        Call::Put(key, value, number) => Ok(put(alloc, pass, key, value)? == *number),
        Call::Delete(key, number) => Ok(delete(alloc, pass, key)? == *number),
        Call::Get(key, front, value) => Ok(is_found(&get(alloc, pass, key)?, *front, *value)),
        Call::Sync(front) => Ok(sync(alloc, pass)? == *front),
        Call::Find(key, there) => Ok(find(alloc, pass, key)? == *there),
    }
}

fn all_answer(
    alloc: Global,
    pass: &mut StorePass<MemoryStrip>,
    calls: &[Call],
) -> Result<bool, Fail> {
    for call in calls {
        if !answers(alloc, pass, call)? {
            return Ok(false);
        }
    }
    Ok(true)
}

/// A store over a strip with these bytes, of which no call fails; or the strip, and why it is refused.
fn try_open(
    alloc: Global,
    bytes: &[u8],
) -> Result<Result<StorePass<MemoryStrip>, (MemoryStrip, OpenError)>, Fail> {
    let bytes = Vec::from_slice(alloc, bytes)?;
    let strip = MemoryStrip::new(alloc, 0, bytes, Vec::new(alloc))?;
    Ok(StorePass::open(alloc, strip))
}

fn opened(alloc: Global, bytes: &[u8]) -> Result<StorePass<MemoryStrip>, Fail> {
    match try_open(alloc, bytes)? {
        Ok(pass) => Ok(pass),
        Err(_refused) => Err("the strip is refused")?,
    }
}

/// The strip of a store that is closed.
fn closed(alloc: Global, pass: StorePass<MemoryStrip>) -> Result<MemoryStrip, Fail> {
    match pass.close(alloc) {
        (strip, _front, Ok(_end)) => Ok(strip),
        (_strip, _front, Err(_error)) => Err("the closing flush failed")?,
    }
}

fn holds(strip: &MemoryStrip, bytes: &[u8]) -> bool {
    strip.as_bytes() == bytes
}

/// Whether a store over a strip with the bytes `before` answers these calls so, and leaves the bytes `after`.
fn leads(alloc: Global, before: &[u8], calls: &[Call], after: &[u8]) -> Result<bool, Fail> {
    let mut pass = opened(alloc, before)?;
    let answered = all_answer(alloc, &mut pass, calls)?;
    let strip = closed(alloc, pass)?;
    Ok(answered && holds(&strip, after))
}

#[test]
fn a_put_that_is_synced_has_these_bytes(rt: HostRuntime) -> Result<(), Fail> {
    let calls = [
        Call::Put(b"a", b"1", 0),
        Call::Sync(1),
        Call::Get(b"a", 1, Some(b"1")),
    ];
    assert!(rt; leads(rt.alloc(), b"", &calls, ONE)?);
    Ok(())
}

#[test]
fn a_delete_of_an_absent_key_is_an_update_and_makes_no_row(rt: HostRuntime) -> Result<(), Fail> {
    let calls = [
        Call::Delete(b"a", 0),
        Call::Get(b"a", 1, None),
        Call::Find(b"a", false),
    ];
    assert!(rt; leads(rt.alloc(), b"", &calls, DELETED)?);
    Ok(())
}

#[test]
fn a_delete_after_a_put_hides_the_value(rt: HostRuntime) -> Result<(), Fail> {
    let calls = [
        Call::Delete(b"a", 1),
        Call::Get(b"a", 2, None),
        Call::Find(b"a", true),
        Call::Delete(b"a", 2),
    ];
    assert!(rt; leads(rt.alloc(), ONE, &calls, TWICE_DELETED)?);
    Ok(())
}

#[test]
fn a_store_that_is_opened_again_numbers_on(rt: HostRuntime) -> Result<(), Fail> {
    let calls = [Call::Get(b"a", 1, Some(b"1")), Call::Put(b"b", b"2", 1)];
    assert!(rt; leads(rt.alloc(), ONE, &calls, TWO)?);
    Ok(())
}

/// ONE with this byte in place of the one at this place.
fn changed(alloc: Global, at: usize, byte: u8) -> Result<Vec<u8>, Fail> {
    let mut made = Vec::from_slice(alloc, ONE)?;
    if let Some(old) = made.get_mut(at) {
        *old = byte;
    }
    Ok(made)
}

fn printed(alloc: Global, error: &OpenError) -> Result<String, Fail> {
    Ok(format!(in alloc; "{error}")?)
}

/// Why ONE with this byte in place of the one at this place is refused, as it is printed.
fn refusal(alloc: Global, at: usize, byte: u8) -> Result<String, Fail> {
    let made = changed(alloc, at, byte)?;
    match try_open(alloc, made.as_slice())? {
        Ok(_pass) => Err("it was opened")?,
        Err((_strip, error)) => printed(alloc, &error),
    }
}

/// Whether that is the reason.
fn is_refused(alloc: Global, at: usize, byte: u8, wanted: &str) -> Result<bool, Fail> {
    Ok(refusal(alloc, at, byte)?.as_str() == wanted)
}

#[test]
fn what_is_no_log_is_refused_by_name(rt: HostRuntime) -> Result<(), Fail> {
    assert!(rt; is_refused(rt.alloc(), 60, 0xA5, "TornHeader strip 0 at 60")?);
    assert!(rt; is_refused(rt.alloc(), 5, 1, "BadEntry strip 0 frame 0 at 0")?);
    assert!(rt; is_refused(rt.alloc(), 35, 2, "LogGap want 0 found 2")?);
    Ok(())
}
