//! Flushes that fail: of a SYNC, and of a PUT where enough is pending.
use crate::tests::running::{Given, HEADER, PUT_LOGGED, Wanted, concat, frame_of, run, script};
use crate::tests::samples::{BYE, DEVICE_0, DONE_0, FAULT_0, GET, PUT, QUIT, SYNC, SYNCED_1};
use std::process::Abort;
use std::test::Fail;

/// No value of `a` after four updates.
const ABSENT_4: &[u8] = &[0, 0, 0, 9, 0x83, 0, 0, 0, 0, 0, 0, 0, 4];

const DONE_4: &[u8] = &[0, 0, 0, 9, 0x81, 0, 0, 0, 0, 0, 0, 0, 4];

/// PUT `k` with a value of so many bytes: an entry of 19 bytes more.
fn long_put(rt: &(impl Abort + AllocGlobal), len: u16) -> Result<Vec<u8>, Fail> {
    let value = vec![in rt.alloc(); 0x76u8; len as usize]?;
    let body = 8 + len as u32;
    concat(
        rt,
        &[
            &body.to_be_bytes(),
            &[1, 0, 1, 0x6B, 0, 0],
            &len.to_be_bytes(),
            &value,
        ],
    )
}

fn done(number: u8) -> [u8; 13] {
    [0, 0, 0, 9, 0x81, 0, 0, 0, 0, 0, 0, 0, number]
}

#[test]
fn a_put_is_refused_where_its_flush_fails(rt: HostRuntime) -> Result<(), Fail> {
    let long = long_put(&rt, 65_535)?;
    let input = concat(&rt, &[&long, &long, &long, &long, PUT, GET, PUT, QUIT])?;
    let output = concat(
        &rt,
        &[
            &done(0),
            &done(1),
            &done(2),
            &done(3),
            FAULT_0,
            ABSENT_4,
            DONE_4,
            BYE,
        ],
    )?;
    // 262,216 bytes of entries in the first frame, and the last PUT in a frame of its own.
    let first = frame_of(&rt, 0, 0, &[&long, &long, &long, &long])?;
    let second = frame_of(&rt, 4, 4, &[PUT])?;
    let strip = concat(&rt, &[HEADER, &first, &second, &[0]])?;
    let given = Given {
        // The first frame's gate.
        device_fails: &[13],
        ..Given::input(&input)
    };
    let wanted = Wanted {
        status: 4,
        output: &output,
        left: &[],
        strip: &strip,
        notes: DEVICE_0,
    };
    run(&rt, &["script", "mem"], given, wanted)
}

#[test]
fn a_sync_that_fails_can_be_tried_again(rt: HostRuntime) -> Result<(), Fail> {
    let input = concat(&rt, &[PUT, SYNC, SYNC, QUIT])?;
    let output = concat(&rt, &[DONE_0, FAULT_0, SYNCED_1, BYE])?;
    let given = Given {
        // The frame's gate: the third call of the first SYNC.
        device_fails: &[13],
        ..Given::input(&input)
    };
    let wanted = Wanted {
        status: 4,
        output: &output,
        left: &[],
        strip: PUT_LOGGED,
        notes: DEVICE_0,
    };
    script(&rt, given, wanted)
}
