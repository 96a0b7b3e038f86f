//! The entries of the bench: a key of 16 bytes and a value of 105, so that each has 139 bytes in the log.
use rdb_base::{Change, Entry, Key, Value};
use std::alloc::Global;

const VALUE: [u8; 105] = [b'v'; 105];

/// The entry with this ordinal.
pub(crate) fn entry_of(alloc: Global, ordinal: u64) -> Option<Entry> {
    let mut key = [b'k'; 16];
    key[8..16].copy_from_slice(&ordinal.to_be_bytes());
    Some(Entry {
        caller: 0,
        ordinal,
        key: Key::try_new(alloc, &key).ok()?,
        change: Change::Put(Value::try_new(alloc, &VALUE).ok()?),
    })
}

/// What an entry adds to the sum: its ordinal, its key's last byte and the length of its value.
pub(crate) fn weight_of(entry: &Entry) -> u64 {
    let last = match entry.key.as_bytes() {
        [.., last] => *last as u64,
        [] => 0,
    };
    let len = match &entry.change {
        Change::Put(value) => value.as_bytes().len() as u64,
        Change::Del => 0,
    };
    entry.ordinal.wrapping_add(last).wrapping_add(len)
}
