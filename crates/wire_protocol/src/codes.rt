//! The codes of requests, replies and refusals. They are on the wire: other programs write and read these very bytes.

/// A key is to have a value.
pub const PUT: u8 = 0x01;
/// A key is to have no value.
pub const DELETE: u8 = 0x02;
/// Which value has a key?
pub const GET: u8 = 0x03;
/// All updates so far are to outlast a crash.
pub const SYNC: u8 = 0x04;
/// The session is to end.
pub const QUIT: u8 = 0x09;

const _: () = prove!(PUT == 0x01 && DELETE == 0x02 && GET == 0x03 && SYNC == 0x04 && QUIT == 0x09);

/// An update has a number.
pub const DONE: u8 = 0x81;
/// A key has a value at a front.
pub const VALUE: u8 = 0x82;
/// A key has no value at a front.
pub const ABSENT: u8 = 0x83;
/// Each entry below a number outlasts a crash.
pub const SYNCED: u8 = 0x84;
/// The session ends as it was asked to.
pub const BYE: u8 = 0x89;

const _: () = prove!(
    DONE == 0x81 && VALUE == 0x82 && ABSENT == 0x83 && SYNCED == 0x84 && BYE == 0x89
);

/// A message is refused, and the session ends.
pub const BAD_MESSAGE: u8 = 0xE1;
/// A device failed.
pub const DEVICE_FAULT: u8 = 0xE4;
/// Memory was refused.
pub const OUT_OF_MEMORY: u8 = 0xE5;
/// The history has no number left.
pub const HISTORY_SPENT: u8 = 0xE7;
/// A compaction has no number left.
pub const NUMBERS_SPENT: u8 = 0xE8;

const _: () = prove!(BAD_MESSAGE == 0xE1 && DEVICE_FAULT == 0xE4 && OUT_OF_MEMORY == 0xE5);

const _: () = prove!(HISTORY_SPENT == 0xE7 && NUMBERS_SPENT == 0xE8);

/// A body's length is 0 or more than `BODY_MAX`.
pub const BAD_LENGTH: u8 = 1;
/// The first byte of a body is no request's code.
pub const NO_REQUEST: u8 = 2;
/// A body ends inside a field.
pub const CUT_FIELD: u8 = 3;
/// A key's length is 0 or more than `KEY_MAX`.
pub const BAD_KEY: u8 = 4;
/// A value's length is more than `VALUE_MAX`.
pub const BAD_VALUE: u8 = 5;
/// Bytes follow the last field of a body.
pub const TRAILING_BYTES: u8 = 7;

const _: () = prove!(BAD_LENGTH == 1 && NO_REQUEST == 2 && CUT_FIELD == 3);

const _: () = prove!(BAD_KEY == 4 && BAD_VALUE == 5 && TRAILING_BYTES == 7);
