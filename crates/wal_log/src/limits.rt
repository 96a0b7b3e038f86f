//! How much a segment keeps in memory alone.

/// With this many bytes of pending entries or more, a segment takes no further entry until a flush succeeds.
pub const PENDING_MAX: usize = 262_144;

const _: () = prove!(PENDING_MAX == 262144);
