//! How a table ends, and how long one may be. These numbers are part of the format on disk, but for the last.
use block_code::UNIT;

/// The bytes `RDBT`, as a number.
pub const MAGIC: u32 = 0x5244_4254;

const _: () = prove!(MAGIC == 1380205140);

/// The version of the first format.
pub const FIRST_VERSION: u16 = 1;

const _: () = prove!(FIRST_VERSION == 1);

/// Bytes of a unit's count.
pub const COUNT_LEN: usize = 2;

const _: () = prove!(COUNT_LEN == 2);

/// Bytes of a unit and its count.
pub const UNIT_AND_COUNT: usize = UNIT + COUNT_LEN;

const _: () = prove!(UNIT_AND_COUNT == 4098);

/// Bytes of a table after its counts: magic, version, zero, units and pairs.
pub const FOOTER_LEN: usize = 16;

const _: () = prove!(FOOTER_LEN == 4 + 2 + 2 + 4 + 4);

/// The most bytes of a table in memory: the place of each pair fits four bytes, whatever its offset is.
pub const TABLE_MAX: usize = (1 << 32) - (1 << 16);

const _: () = prove!(TABLE_MAX == 4294901760);
