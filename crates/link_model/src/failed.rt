//! The one answer of a stream that failed.

/// A stream failed. Its count of faults rose, or stands at its last value, 2^64 - 1.
#[derive(Clone, Copy, Debug, PartialEq, Eq)]
pub struct Failed;
