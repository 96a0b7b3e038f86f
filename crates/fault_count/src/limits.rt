//! The last value of a count.

/// A count of failures stands still here.
pub const COUNT_MAX: u64 = u64::MAX;

const _: () = prove!(COUNT_MAX == 18_446_744_073_709_551_615);
