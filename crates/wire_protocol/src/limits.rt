//! How long messages are, from the limits of keys and values.
use rdb_base::{KEY_MAX, VALUE_MAX};

/// How many bytes the length has that stands before a body.
pub const LENGTH_SIZE: usize = 4;

const _: () = prove!(LENGTH_SIZE == 4);

/// The most bytes of a request's body: a code, and a row with its two lengths.
pub const BODY_MAX: usize = 7 + KEY_MAX + VALUE_MAX;

const _: () = prove!(BODY_MAX == 66_566);

/// The most bytes of a request's message: a length, and a body.
pub const MESSAGE_MAX: usize = LENGTH_SIZE + BODY_MAX;

const _: () = prove!(MESSAGE_MAX == 66_570);

/// The most bytes of a reply's message: a length, a code, a front, and a value with its length.
pub const REPLY_MAX: usize = LENGTH_SIZE + 13 + VALUE_MAX;

const _: () = prove!(REPLY_MAX == 65_552);
