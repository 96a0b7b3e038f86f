//! The limit of a world.

/// The most leaves that a world has.
pub const LEAVES_MAX: usize = 1024;

const _: () = prove!(LEAVES_MAX == 1024);
