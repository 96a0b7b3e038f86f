//! How a block lies in a table. These numbers are part of the format on disk.
use rdb_base::PairLimits;

/// Bytes of a unit. A block has one, or as many as its one pair needs.
pub const UNIT: usize = 4096;

const _: () = prove!(UNIT == 4096);

/// Bytes of a count and of an offset.
pub const NUMBER_LEN: usize = 2;

const _: () = prove!(NUMBER_LEN == 2);

/// The most bytes of a key in the first format of tables.
pub const FIRST_KEY_MAX: usize = 1024;

const _: () = prove!(FIRST_KEY_MAX == 1024);

/// The most bytes of a value in the first format of tables.
pub const FIRST_VALUE_MAX: usize = 65535;

const _: () = prove!(FIRST_VALUE_MAX == 65535);

/// The limits of pairs in the first format of tables.
pub const FIRST_LIMITS: PairLimits = PairLimits {
    key_max: FIRST_KEY_MAX,
    value_max: FIRST_VALUE_MAX,
};
