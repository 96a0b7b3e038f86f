//! The names of a folder's files. They are part of the format on disk: nothing here may change.
use std::alloc::{AllocError, Global};

/// Before the digits of a shelf file's name.
const SHELF_LETTER: char = 't';

/// Digits of a shelf file's number, with zeros in front.
const SHELF_DIGITS: usize = 20;

/// The name of the log's strip of this number, 0 to 7.
pub fn log_name(alloc: Global, strip: u8) -> Result<String, AllocError> {
    format!(in alloc; "log{strip}")
}

/// The names of the manifest's two strips.
pub const MANIFEST_NAMES: [&str; 2] = ["man0", "man1"];

/// The name of the shelf's file of this number.
pub(crate) fn shelf_name(alloc: Global, number: u64) -> Result<String, AllocError> {
    format!(in alloc; "t{number:020}")
}

/// The number of a shelf's file, where the name is one of the shelf's.
pub(crate) fn shelf_number(name: &str) -> Option<u64> {
    let digits = name.strip_prefix(SHELF_LETTER)?;
    if digits.len() != SHELF_DIGITS || !digits.bytes().all(|byte| byte.is_ascii_digit()) {
        return None;
    }
    digits.parse().ok()
}
