//! What a crash in memory leaves, by the number that is picked.
ghost use Rattle.std.specs.Prelude.{◌≡◌, ◌≤◌, length, vec_capacity};
ghost use Rattle.disk_model.specs.FileState.{marked, marked_by, marked_in, crash_image};

use crate::bytes::replace;
use crate::change::Change;
use crate::limits::{ERASED_BYTE, STRAY_BYTE};

/// Makes of the bytes what the picked crash leaves: those of the last sync, those of a read, or
/// those with another byte in place of each unsynced one.
pub(crate) fn crash_bytes(bytes: &mut Vec<u8>, synced: &[u8], changes: &[Change], pick: u64)
    requires { length synced.now ≤ vec_capacity bytes.old }
    ensures left { bytes.new.items ≡ crash_image pick
        (record { bytes = bytes.old.items; synced = synced.now; changes = changes.now }) }
    ensures capacity { vec_capacity bytes.old ≤ vec_capacity bytes.new }
{
    match pick % 4 {
        0 => replace(bytes, synced),
        1 => {}
        2 => mark(bytes, changes, ERASED_BYTE),
        _ => mark(bytes, changes, STRAY_BYTE),
    }
}

/// Puts a byte in place of each that these changes were to write.
fn mark(bytes: &mut [u8], changes: &[Change], byte: u8)
    ensures { bytes.new ≡ marked byte changes.now bytes.old }
{
    for i in 0..changes.len() {
        mark_one(bytes, &changes[i], byte);
    }
}

fn mark_one(bytes: &mut [u8], change: &Change, byte: u8)
    ensures { bytes.new ≡ marked_by byte change.now bytes.old }
{
    if let Change::Written { at, count } = change {
        mark_range(bytes, *at, *count, byte);
    }
}

/// Puts a byte in place of each in a range, as far as there are any.
fn mark_range(bytes: &mut [u8], at: u64, count: u64, byte: u8)
    ensures { bytes.new ≡ marked_in byte bytes.old at count }
{
    let start = at.min(bytes.len() as u64) as usize;
    let (_, rest) = bytes.split_at_mut(start);
    let most = count.min(rest.len() as u64) as usize;
    let (range, _) = rest.split_at_mut(most);
    range.fill(byte);
}
