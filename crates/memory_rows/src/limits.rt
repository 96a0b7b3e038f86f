//! The limit of the newer changes.

/// From so many bytes on, the sizes of all changes since the last merge together, the next change merges first.
pub const MERGE_SIZE: u64 = 4_194_304;

const _: () = prove!(MERGE_SIZE == 4_194_304);
