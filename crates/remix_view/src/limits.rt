//! The limits of a view. Files that keep an index rest on both.

/// The most runs that a view orders.
pub const RUNS_MAX: usize = 8;

/// The places of a segment.
pub const SEGMENT_PLACES: usize = 32;

const _: () = prove!(RUNS_MAX == 8);

const _: () = prove!(SEGMENT_PLACES == 32);
