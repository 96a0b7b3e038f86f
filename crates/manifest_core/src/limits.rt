//! The numbers of a manifest's strips.

/// A manifest strip is full when its frames end at this place or after it. The next edition then goes to the other one.
pub const STRIP_FULL: u64 = 1_048_576;

const _: () = prove!(STRIP_FULL == 1048576);

/// The bytes of a frame before its payload: its gate and the payload's length.
pub const FRAME_HEAD: u64 = 5;

const _: () = prove!(FRAME_HEAD == 5);
