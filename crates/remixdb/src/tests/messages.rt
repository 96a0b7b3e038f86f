//! Messages that are refused, and messages that the input does not end.
use crate::tests::running::{concat, ends_with};
use crate::tests::samples::{DONE_0, GET, PUT, VALUE_1, bad_message};
use std::process::Abort;
use std::test::Fail;

/// A message is refused with this code, at the input's start and after a request. What follows it is not taken.
fn is_refused(rt: &(impl Abort + AllocGlobal), message: &[u8], code: u8) -> Result<(), Fail> {
    let first = bad_message(0, code);
    ends_with(rt, 1, &[message, PUT], PUT, &[&first], &[])?;
    let second = bad_message(13, code);
    ends_with(rt, 1, &[PUT, message, PUT], PUT, &[DONE_0, &second], &[PUT])
}

/// Messages, and the code that refuses them.
const REFUSED: &[(&[u8], u8)] = &[
    // A length of a body that is 0, or past the greatest.
    (&[0, 0, 0, 0], 1),
    (&[0, 1, 4, 7], 1),
    // No request has this code.
    (&[0, 0, 0, 1, 0x10], 2),
    (&[0, 0, 0, 1, 5], 2),
    // The body ends inside a field.
    (&[0, 0, 0, 2, 3, 0], 3),
    (&[0, 0, 0, 3, 2, 0, 1], 3),
    // A length of a key that is 0, or 1,025: it comes before the key is missed.
    (&[0, 0, 0, 8, 1, 0, 0, 0, 0, 0, 1, 0x31], 4),
    (&[0, 0, 0, 3, 3, 4, 1], 4),
    // A value's length past the greatest, before the value is missed.
    (&[0, 0, 0, 8, 1, 0, 1, 0x61, 0, 1, 0, 0], 5),
    // A byte after the last field.
    (&[0, 0, 0, 2, 4, 0], 7),
    (&[0, 0, 0, 2, 9, 0], 7),
];

#[test]
fn a_message_is_refused_by_its_code(rt: HostRuntime) -> Result<(), Fail> {
    for (message, code) in REFUSED {
        is_refused(&rt, message, *code)?;
    }
    Ok(())
}

/// A cut message gets no reply, at the input's start and after two requests.
fn gets_no_reply(rt: &(impl Abort + AllocGlobal), cut: &[u8]) -> Result<(), Fail> {
    ends_with(rt, 1, &[cut], &[], &[], &[])?;
    ends_with(rt, 1, &[PUT, GET, cut], &[], &[DONE_0, VALUE_1], &[PUT])
}

#[test]
fn a_message_that_is_cut_gets_no_reply(rt: HostRuntime) -> Result<(), Fail> {
    for end in 1..PUT.len() {
        let (cut, _rest) = PUT.split_at(end);
        gets_no_reply(&rt, cut)?;
    }
    Ok(())
}

#[test]
fn a_key_that_is_too_long_is_refused(rt: HostRuntime) -> Result<(), Fail> {
    let key = [0x6B; 1025];
    let put = concat(&rt, &[&[0, 0, 4, 9, 1, 4, 1], &key, &[0, 0, 0, 1, 0x31]])?;
    is_refused(&rt, &put, 4)
}
