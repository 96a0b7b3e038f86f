//! The numbers of the devices: 0 to 7 are log strips, 8 and 9 manifest strips, 10 the shelf, 11 the folder.

/// How many log strips there are. Their devices have the numbers from 0 on.
pub const LOG_STRIPS: usize = 8;

/// The device of the first manifest strip.
pub const MANIFEST_A: u8 = 8;

/// The device of the second manifest strip.
pub const MANIFEST_B: u8 = 9;

/// The device of the shelf.
pub const SHELF: u8 = 10;

/// The device of the folder that the others are in.
pub const FOLDER: u8 = 11;

/// The highest number of a strip.
pub const STRIP_MAX: u8 = 9;

/// The highest number of a device. Replies name devices below it only: the folder is opened before a session begins.
pub const DEVICE_MAX: u8 = 11;

/// What a crash in memory may be picked to leave in place of each unsynced byte: all bits set, as erased memory has.
pub const ERASED_BYTE: u8 = 0xFF;

/// The same: a byte that means something to those who read the strip, as an open gate does.
pub const STRAY_BYTE: u8 = 0xA5;

const _: () = prove!(LOG_STRIPS == 8);

const _: () = prove!(MANIFEST_A == 8);

const _: () = prove!(MANIFEST_B == 9);

const _: () = prove!(SHELF == 10);

const _: () = prove!(FOLDER == 11);

const _: () = prove!(STRIP_MAX == 9);

const _: () = prove!(DEVICE_MAX == 11);

const _: () = prove!(ERASED_BYTE == 255);

const _: () = prove!(STRAY_BYTE == 165);
