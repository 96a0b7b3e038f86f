//! The limits of a world.

/// The most live segments of a log: each stands on a strip of its own.
pub const SEGMENTS_MAX: usize = 8;

const _: () = prove!(SEGMENTS_MAX == 8);

/// The most pins.
pub const PINS_MAX: u32 = u32::MAX;

const _: () = prove!(PINS_MAX == 4294967295);
