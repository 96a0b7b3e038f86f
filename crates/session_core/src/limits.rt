//! How much a session takes.

/// The most bytes that one session takes. Places and counts of replies then fit 64 bits with room to spare.
pub const SESSION_MAX: u64 = 1 << 62;

const _: () = prove!(SESSION_MAX == 4_611_686_018_427_387_904);
