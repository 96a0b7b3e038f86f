//! Entries are pushed, and flushed whenever enough of them are pending.
use crate::entries::entry_of;
use disk_model::Strip;
use rdb_base::NUMBER_MAX;
use std::alloc::Global;
use wal_log::{PENDING_MAX, Segment};

/// The segment of a strip, started.
fn started<S: Strip + Drop>(alloc: Global, strip: S) -> Option<Segment<S>> {
    let (mut segment, _entries) = Segment::open(alloc, strip, 0, 0).ok()?;
    segment.start(alloc).ok()?;
    Some(segment)
}

/// Whether all entries are synced.
fn flush<S: Strip>(alloc: Global, segment: &mut Segment<S>) -> bool {
    segment.is_started() && segment.flush(alloc).is_ok()
}

/// Whether one entry more was pushed.
fn push<S: Strip>(alloc: Global, segment: &mut Segment<S>, ordinal: u64) -> bool {
    let Some(entry) = entry_of(alloc, ordinal) else {
        return false;
    };
    if !segment.is_started() || segment.pending() >= PENDING_MAX || segment.end() >= NUMBER_MAX {
        return false;
    }
    if segment.reserve(&entry).is_err() {
        return false;
    }
    segment.push(&entry);
    true
}

/// Pushes entries until the segment has so many. Whether all of them are synced.
fn fill<S: Strip>(alloc: Global, segment: &mut Segment<S>, entries: u64) -> bool {
    let first = segment.end();
    for ordinal in first..entries {
        if segment.pending() >= PENDING_MAX && !flush(alloc, segment) {
            return false;
        }
        if !push(alloc, segment, ordinal) {
            return false;
        }
    }
    flush(alloc, segment)
}

/// Fills the strip's segment up to so many entries. The strip, and how many entries it has.
pub(crate) fn filled<S: Strip + Drop>(alloc: Global, strip: S, entries: u64) -> Option<(S, u64)> {
    let mut segment = started(alloc, strip)?;
    if !fill(alloc, &mut segment, entries) {
        return None;
    }
    let count = segment.end();
    Some((segment.into_strip(), count))
}
