//! How much a pair of streams holds, and how often it tries.

/// How many bytes are read ahead at most, in one read: a pipe of the system holds as many.
pub(crate) const READ_AHEAD_MAX: usize = 65_536;

const _: () = prove!(READ_AHEAD_MAX == 65_536);

/// How many bytes are gathered at most before a writer gets them, in one write where it takes them.
pub(crate) const GATHERED_MAX: usize = 65_536;

const _: () = prove!(GATHERED_MAX == 65_536);

/// How many interrupted calls are tried again in one read, write or flush. No run of signals is as
/// long; the number bounds the loop.
pub(crate) const INTERRUPTS_MAX: u32 = 100_000;

const _: () = prove!(INTERRUPTS_MAX == 100_000);
