//! The limits of keys, values, numbers and pages. Code and definitions take them from here.

/// The most bytes that a key has. It has at least one.
pub const KEY_MAX: usize = 1024;

const _: () = prove!(KEY_MAX == 1024);

/// The most bytes of a key that needs no allocation: they lie in the `Key` itself.
pub const INLINE_KEY_MAX: usize = 16;

const _: () = prove!(INLINE_KEY_MAX == 16);

/// The most bytes that a value has.
pub const VALUE_MAX: usize = 65535;

const _: () = prove!(VALUE_MAX == 65535);

/// Entries are numbered below this number: at it a history is spent.
pub const NUMBER_MAX: u64 = 1 << 62;

const _: () = prove!(NUMBER_MAX == 4611686018427387904);

/// The tag of a deletion in a pair field. Every other tag is the length of a value.
pub const DELETION_TAG: u32 = 0xFFFF_FFFF;

const _: () = prove!(DELETION_TAG == 4294967295);

/// The most bytes of the reply that carries a page of rows.
pub const PAGE_BODY_MAX: usize = 1_048_576;

const _: () = prove!(PAGE_BODY_MAX == 1048576);

/// How many of them come before the rows: a code, a flag and the number of rows.
pub const PAGE_HEAD: usize = 4;

const _: () = prove!(PAGE_HEAD == 4);

/// The most bytes of a pair, with the field's two lengths.
pub const PAIR_MAX: usize = 66565;

const _: () = prove!(PAIR_MAX == 2 + KEY_MAX + 4 + VALUE_MAX);
