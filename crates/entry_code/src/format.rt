//! How a log's payloads begin, and how long their parts are. These numbers are part of the format on disk.
use rdb_base::{KEY_MAX, VALUE_MAX};

/// The first byte of a header.
pub const HEADER_KIND: u8 = 0;

const _: () = prove!(HEADER_KIND == 0);

/// The first byte of a payload of entries.
pub const ENTRIES_KIND: u8 = 1;

const _: () = prove!(ENTRIES_KIND == 1);

/// Bytes of a header: its kind, its segment and the number of the segment's first entry.
pub const HEADER_LEN: usize = 17;

const _: () = prove!(HEADER_LEN == 1 + 8 + 8);

/// Bytes of a payload before its first entry: its kind, the number of the first entry and how many there are.
pub const ENTRIES_HEAD: usize = 13;

const _: () = prove!(ENTRIES_HEAD == 1 + 8 + 4);

/// Bytes of an entry before its pair: its caller and its ordinal.
pub const ENTRY_NUMBERS: usize = 12;

const _: () = prove!(ENTRY_NUMBERS == 4 + 8);

/// The most bytes of an entry.
pub const ENTRY_MAX: usize = 66577;

const _: () = prove!(ENTRY_MAX == ENTRY_NUMBERS + 2 + KEY_MAX + 4 + VALUE_MAX);
