//! The bytes of a segment, written out by hand; each device call failing alone; and each refusal of an opening.
mod several;

use crate::{LogError, PENDING_MAX, Segment};
use disk_model::{DeviceError, MemoryStrip};
use rdb_base::{Change, Entry, Key, NUMBER_MAX, Value};
use std::alloc::Global;
use std::process::Abort;
use std::test::Fail;

/// Segment 0 with the header that begins with number 0, PUT a=1 as entry 0, and a closed gate.
const ONE: &[u8] =
    b"\xA5\0\0\0\x11\0\0\0\0\0\0\0\0\0\0\0\0\0\0\0\0\0\xA5\0\0\0\x21\x01\0\0\0\0\0\0\0\0\0\0\0\x01\0\0\0\0\0\0\0\0\0\0\0\0\0\x01a\0\0\0\x011\0";

fn entry_of(alloc: Global, ordinal: u64, key: &[u8]) -> Result<Entry, Fail> {
    Ok(Entry {
        caller: 0,
        ordinal,
        key: Key::try_new(alloc, key)?,
        change: Change::Put(Value::try_new(alloc, b"1")?),
    })
}

fn strip_of(alloc: Global, bytes: &[u8], failing: &[u64]) -> Result<MemoryStrip, Fail> {
    let bytes = Vec::from_slice(alloc, bytes)?;
    let failing = Vec::from_slice(alloc, failing)?;
    Ok(MemoryStrip::new(alloc, 0, bytes, failing)?)
}

fn push(alloc: Global, segment: &mut Segment<MemoryStrip>, entry: &Entry) -> Result<u64, Fail> {
    if !segment.is_started() || segment.pending() >= PENDING_MAX || segment.end() >= NUMBER_MAX {
        return Err("the segment takes no entry")?;
    }
    segment.reserve(entry)?;
    Ok(segment.push(entry))
}

/// How a flush ended: the number after the last entry, or None after a fault.
fn flush(alloc: Global, segment: &mut Segment<MemoryStrip>) -> Result<Option<u64>, Fail> {
    if !segment.is_started() {
        return Err("the segment is not started")?;
    }
    match segment.flush(alloc) {
        Ok(end) => Ok(Some(end)),
        Err(DeviceError::Fault(_unit)) => Ok(None),
        Err(DeviceError::Memory) => Err("out of memory")?,
    }
}

fn open(
    alloc: Global,
    strip: MemoryStrip,
) -> Result<(Segment<MemoryStrip>, Vec<Entry>), (MemoryStrip, LogError)> {
    Segment::open(alloc, strip, 0, 0)
}

fn opened(alloc: Global, strip: MemoryStrip) -> Result<(Segment<MemoryStrip>, Vec<Entry>), Fail> {
    match open(alloc, strip) {
        Ok(found) => Ok(found),
        Err(_refused) => Err("the strip is refused")?,
    }
}

fn start(alloc: Global, segment: &mut Segment<MemoryStrip>) -> Result<(), DeviceError> {
    segment.start(alloc)
}

fn back(segment: Segment<MemoryStrip>) -> MemoryStrip {
    segment.into_strip()
}

fn is_started(segment: &Segment<MemoryStrip>) -> bool {
    segment.is_started()
}

/// The segment of an empty strip, which has no header.
fn empty_segment(alloc: Global) -> Result<Segment<MemoryStrip>, Fail> {
    let strip = strip_of(alloc, b"", &[])?;
    let (segment, _entries) = opened(alloc, strip)?;
    Ok(segment)
}

/// Whether so many bytes are pending, and this is the number after the last entry.
fn has(segment: &Segment<MemoryStrip>, pending: usize, end: u64) -> bool {
    segment.pending() == pending && segment.end() == end
}

/// Whether the entry gets this number.
fn pushes(
    alloc: Global,
    segment: &mut Segment<MemoryStrip>,
    entry: &Entry,
    number: u64,
) -> Result<bool, Fail> {
    Ok(push(alloc, segment, entry)? == number)
}

/// Whether a flush ends well, with this number after the last entry.
fn flushes(alloc: Global, segment: &mut Segment<MemoryStrip>, end: u64) -> Result<bool, Fail> {
    Ok(flush(alloc, segment)? == Some(end))
}

fn holds(strip: &MemoryStrip, bytes: &[u8]) -> bool {
    strip.as_bytes() == bytes
}

#[test]
fn a_put_that_is_flushed_has_these_bytes(rt: HostRuntime) -> Result<(), Fail> {
    let mut segment = empty_segment(rt.alloc())?;
    assert!(rt; !is_started(&segment));
    start(rt.alloc(), &mut segment)?;
    let entry = entry_of(rt.alloc(), 0, b"a")?;
    assert!(rt; pushes(rt.alloc(), &mut segment, &entry, 0)?);
    assert!(rt; has(&segment, 20, 1));
    assert!(rt; flushes(rt.alloc(), &mut segment, 1)?);
    assert!(rt; has(&segment, 0, 1));
    let strip = back(segment);
    assert!(rt; holds(&strip, ONE));
    Ok(())
}

/// ONE with these bytes in place of those from this place on.
fn changed(alloc: Global, at: usize, bytes: &[u8]) -> Result<Vec<u8>, Fail> {
    let (before, rest) = ONE.split_at(at.min(ONE.len()));
    let (_, after) = rest.split_at(bytes.len().min(rest.len()));
    let mut made = Vec::from_slice(alloc, before)?;
    made.extend_from_slice(bytes)?;
    made.extend_from_slice(after)?;
    Ok(made)
}

fn printed(alloc: Global, error: &LogError) -> Result<String, Fail> {
    Ok(format!(in alloc; "{error}")?)
}

/// Why ONE with these bytes from this place on is refused, as it is printed.
fn refusal(alloc: Global, at: usize, bytes: &[u8]) -> Result<String, Fail> {
    let made = changed(alloc, at, bytes)?;
    let strip = strip_of(alloc, made.as_slice(), &[])?;
    match open(alloc, strip) {
        Ok(_opened) => Err("it was opened")?,
        Err((_strip, error)) => printed(alloc, &error),
    }
}

fn is_text(text: &str, wanted: &str) -> bool {
    text == wanted
}

#[test]
fn what_is_no_segment_is_refused_by_name(rt: HostRuntime) -> Result<(), Fail> {
    let rows: [(usize, &[u8], &str); 7] = [
        (60, b"\xA5", "TornHeader strip 0 at 60"),
        (5, b"\x01", "BadEntry strip 0 frame 0 at 0"),
        (
            13,
            b"\x01\0\0\0\0\0\0\0\x01",
            "BadEntry strip 0 frame 0 at 1",
        ),
        (13, b"\x08\0\0\0\0\0\0\0\x08", "LogGap want 0 found 8"),
        (39, b"\0", "BadEntry strip 0 frame 22 at 9"),
        (35, b"\x02", "LogGap want 0 found 2"),
        (21, b"\x02", "LogGap want 2 found 0"),
    ];
    for (at, bytes, wanted) in rows {
        let refused = refusal(rt.alloc(), at, bytes)?;
        assert!(rt; is_text(&refused, wanted));
    }
    Ok(())
}

/// How far a segment came before its first fault: its strip, how many entries are surely synced, and how many there are.
#[derive(Drop)]
struct Stopped {
    strip: MemoryStrip,
    synced: usize,
    pushed: usize,
}

/// Pushes and flushes this entry. Whether that went well.
fn push_and_flush(
    alloc: Global,
    segment: &mut Segment<MemoryStrip>,
    entry: &Entry,
) -> Result<bool, Fail> {
    push(alloc, segment, entry)?;
    Ok(flush(alloc, segment)?.is_some())
}

/// Starts a segment, and then pushes and flushes two entries, up to the first fault. How many entries were pushed, and
/// how many of them are surely synced.
fn pushed_and_synced(
    alloc: Global,
    segment: &mut Segment<MemoryStrip>,
    entries: &[Entry; 2],
) -> Result<(usize, usize), Fail> {
    if start(alloc, segment).is_err() {
        return Ok((0, 0));
    }
    if !push_and_flush(alloc, segment, &entries[0])? {
        return Ok((1, 0));
    }
    if !push_and_flush(alloc, segment, &entries[1])? {
        return Ok((2, 1));
    }
    Ok((2, 2))
}

/// The same of a strip that is opened first.
fn until_a_fault(alloc: Global, strip: MemoryStrip, entries: &[Entry; 2]) -> Result<Stopped, Fail> {
    let mut segment = match open(alloc, strip) {
        Ok((segment, _entries)) => segment,
        Err((strip, _error)) => return Ok(Stopped {
            strip,
            synced: 0,
            pushed: 0,
        }),
    };
    let (pushed, synced) = pushed_and_synced(alloc, &mut segment, entries)?;
    Ok(Stopped {
        strip: back(segment),
        synced,
        pushed,
    })
}

/// How many entries a strip has.
fn count_on(alloc: Global, strip: MemoryStrip) -> Result<usize, Fail> {
    let (_segment, entries) = opened(alloc, strip)?;
    Ok(entries.len())
}

/// Whether a crash leaves each entry that was synced, and none that was not pushed.
fn is_kept(alloc: Global, stopped: Stopped, pick: u64) -> Result<bool, Fail> {
    let count = count_on(alloc, stopped.strip.crash(pick))?;
    Ok(stopped.synced <= count && count <= stopped.pushed)
}

#[test]
fn a_crash_leaves_what_was_synced_and_a_front_of_the_rest(rt: HostRuntime) -> Result<(), Fail> {
    let alloc = rt.alloc();
    let entries = [entry_of(alloc, 0, b"a")?, entry_of(alloc, 1, b"b")?];
    for run in 0..96u64 {
        let strip = strip_of(alloc, b"", &[run / 4])?;
        let stopped = until_a_fault(alloc, strip, &entries)?;
        assert!(rt; is_kept(alloc, stopped, run % 4)?);
    }
    Ok(())
}
