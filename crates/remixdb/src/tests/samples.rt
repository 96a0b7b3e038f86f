//! Messages and notes, written out.

/// PUT `a` = `1`.
pub const PUT: &[u8] = &[0, 0, 0, 9, 1, 0, 1, 0x61, 0, 0, 0, 1, 0x31];

pub const GET: &[u8] = &[0, 0, 0, 4, 3, 0, 1, 0x61];

/// DELETE `x`.
pub const DELETE: &[u8] = &[0, 0, 0, 4, 2, 0, 1, 0x78];

pub const SYNC: &[u8] = &[0, 0, 0, 1, 4];

pub const QUIT: &[u8] = &[0, 0, 0, 1, 9];

pub const DONE_0: &[u8] = &[0, 0, 0, 9, 0x81, 0, 0, 0, 0, 0, 0, 0, 0];

/// The value `1` at front 1.
pub const VALUE_1: &[u8] = &[
    0, 0, 0, 0x0E, 0x82, 0, 0, 0, 0, 0, 0, 0, 1, 0, 0, 0, 1, 0x31,
];

pub const ABSENT_0: &[u8] = &[0, 0, 0, 9, 0x83, 0, 0, 0, 0, 0, 0, 0, 0];

pub const ABSENT_1: &[u8] = &[0, 0, 0, 9, 0x83, 0, 0, 0, 0, 0, 0, 0, 1];

pub const SYNCED_1: &[u8] = &[0, 0, 0, 9, 0x84, 0, 0, 0, 0, 0, 0, 0, 1];

/// Device 0 failed.
pub const FAULT_0: &[u8] = &[0, 0, 0, 2, 0xE4, 0];

pub const BYE: &[u8] = &[0, 0, 0, 1, 0x89];

/// A bad message at this place, refused by this code.
pub fn bad_message(place: u64, code: u8) -> [u8; 14] {
    let [a, b, c, d, e, f, g, h] = place.to_be_bytes();
    [0, 0, 0, 0x0A, 0xE1, a, b, c, d, e, f, g, h, code]
}

pub const BAD: &[u8] = b"remixdb: session ended by a bad message\n";

pub const UNKNOWN: &[u8] = b"remixdb: words are not in the stated form\n";

pub const DEVICE_0: &[u8] = b"remixdb: device 0 failed\n";

pub const FAILED: &[u8] = b"remixdb: stream failed\n";

pub const OUT_OF_MEMORY: &[u8] = b"remixdb: out of memory\n";
