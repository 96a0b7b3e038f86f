//! Sessions that end well.
use crate::tests::running::{Given, HEADER, PUT_LOGGED, Wanted, concat, ends_with, script};
use crate::tests::samples::{
    ABSENT_0, ABSENT_1, BYE, DELETE, DONE_0, GET, PUT, QUIT, SYNC, SYNCED_1, VALUE_1,
};
use std::process::Abort;
use std::test::Fail;

#[test]
fn a_put_is_read_back(rt: HostRuntime) -> Result<(), Fail> {
    ends_with(
        &rt,
        0,
        &[PUT, GET, QUIT],
        &[],
        &[DONE_0, VALUE_1, BYE],
        &[PUT],
    )?;
    ends_with(&rt, 0, &[GET], &[], &[ABSENT_0], &[])?;
    ends_with(&rt, 0, &[], &[], &[], &[])
}

#[test]
fn the_largest_pair_is_read_back(rt: HostRuntime) -> Result<(), Fail> {
    let key = [0x6B; 1024];
    let value = vec![in rt.alloc(); 0x76u8; 65_535]?;
    let put_head: &[u8] = &[0, 1, 4, 6, 1, 4, 0];
    let put = concat(&rt, &[put_head, &key, &[0, 0, 0xFF, 0xFF], &value])?;
    let get = concat(&rt, &[&[0, 0, 4, 3, 3, 4, 0], &key])?;
    let found: &[u8] = &[
        0, 1, 0, 0x0C, 0x82, 0, 0, 0, 0, 0, 0, 0, 1, 0, 0, 0xFF, 0xFF,
    ];
    ends_with(
        &rt,
        0,
        &[&put, &get],
        &[],
        &[DONE_0, found, &value],
        &[&put],
    )
}

/// A session over an empty strip ends well, and leaves these bytes on it.
fn leaves(
    rt: &(impl Abort + AllocGlobal),
    input: &[&[u8]],
    output: &[&[u8]],
    strip: &[u8],
) -> Result<(), Fail> {
    let input = concat(rt, input)?;
    let output = concat(rt, output)?;
    let wanted = Wanted {
        status: 0,
        output: &output,
        left: &[],
        strip,
        notes: b"",
    };
    script(rt, Given::input(&input), wanted)
}

#[test]
fn a_delete_of_an_absent_key_is_an_entry(rt: HostRuntime) -> Result<(), Fail> {
    // A deletion has FFFFFFFF in place of a value's length.
    let frame: &[u8] = &[
        0xA5, 0, 0, 0, 0x20, 1, 0, 0, 0, 0, 0, 0, 0, 0, 0, 0, 0, 1, 0, 0, 0, 0, 0, 0, 0, 0, 0, 0,
        0, 0, 0, 1, 0x78, 0xFF, 0xFF, 0xFF, 0xFF, 0,
    ];
    let strip = concat(&rt, &[HEADER, frame])?;
    let get: &[u8] = &[0, 0, 0, 4, 3, 0, 1, 0x78];
    leaves(&rt, &[DELETE, get], &[DONE_0, ABSENT_1], &strip)
}

#[test]
fn a_put_that_is_synced_has_these_bytes(rt: HostRuntime) -> Result<(), Fail> {
    assert_eq!(rt; PUT_LOGGED.len(), 61);
    leaves(
        &rt,
        &[PUT, SYNC, QUIT],
        &[DONE_0, SYNCED_1, BYE],
        PUT_LOGGED,
    )
}
