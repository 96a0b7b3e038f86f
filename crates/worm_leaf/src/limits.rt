//! The limits of a leaf.

/// The most pairs that a leaf has.
pub const LEAF_PAIRS_MAX: usize = 64;

/// How many pairs stay in a full leaf that is split.
pub const LEAF_PAIRS_KEPT: usize = 32;

const _: () = prove!(LEAF_PAIRS_MAX == 64);

const _: () = prove!(LEAF_PAIRS_KEPT == 32);
