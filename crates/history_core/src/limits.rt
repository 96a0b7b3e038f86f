//! The numbers that replies may name.

/// The greatest number of a device that a reply names: 0 to 9 are strips, 10 is the shelf of tables. The folder that they
/// lie in is device 11. It is opened before a session begins, so no reply names it.
pub const DEVICE_MAX: u8 = 10;

const _: () = prove!(DEVICE_MAX == 10);
