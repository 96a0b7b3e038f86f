//! Devices that are used again: the next session goes on where the last one ended, also after a crash.
ghost use Rattle.std.specs.Prelude.{IfOk};
ghost use Rattle.host_model.specs.HostState.{IsAllHome};

use crate::tests::running::{HEADER, are, concat, frame_of, status_of};
use crate::tests::samples::{
    ABSENT_0, ABSENT_1, BYE, DONE_0, GET, PUT, QUIT, SYNC, SYNCED_1, VALUE_1,
};
use disk_model::{Devices, MemoryShelf, MemoryStrip, Shelf, Strip};
use host_model::{Host, MemoryHost, memory_devices};
use link_model::{ByteSink, ByteSource};
use std::alloc::Global;
use std::process::Abort;
use std::test::Fail;

/// A host of a strip with these bytes that fails at these calls, and of this input.
fn host_of(alloc: Global, bytes: &[u8], fails: &[u64], input: &[u8]) -> Result<MemoryHost, Fail>
    ensures { IfOk result (λ host. IsAllHome (⟦<MemoryHost as Host>⟧.state host)) }
{
    let bytes = Vec::from_slice(alloc, bytes)?;
    let strip = MemoryStrip::new(alloc, 0, bytes, Vec::from_slice(alloc, fails)?)?;
    let source = ByteSource::new(Vec::from_slice(alloc, input)?, Vec::new(alloc));
    let sink = ByteSink::new(alloc, 1000, Vec::new(alloc))?;
    Ok(MemoryHost::new(alloc, memory_devices(alloc, strip)?, source, sink))
}

/// What a session put, and what a crash after it left on the strip.
#[derive(Drop)]
struct Ran {
    status: u8,
    output: Vec<u8>,
    strip: Vec<u8>,
}

impl Ran {
    /// Whether it ended with this status, and put this.
    fn came_to(&self, status: u8, output: &[u8]) -> bool {
        self.status == status && are(Some(&self.output), output)
    }
}

/// What was put.
fn output_of(alloc: Global, host: &MemoryHost) -> Result<Vec<u8>, Fail> {
    match host.output() {
        Some(bytes) => Ok(Vec::from_slice(alloc, bytes)?),
        None => Err("the streams are out")?,
    }
}

/// What a crash leaves of the first strip.
fn strip_after(alloc: Global, host: MemoryHost, pick: u64) -> Result<Vec<u8>, Fail> {
    let Some(Devices { log, .. }) = host.into_devices() else {
        return Err("the devices are out")?;
    };
    match log.into_iter().next() {
        Some(first) => {
            let crashed = first.crash(pick);
            Ok(Vec::from_slice(alloc, crashed.as_bytes())?)
        }
        None => Err("no strip of the log")?,
    }
}

/// Runs a session, and then has a crash leave what this pick says.
fn run_over(
    rt: &(impl Abort + AllocGlobal),
    bytes: &[u8],
    fails: &[u64],
    input: &[&[u8]],
    pick: u64,
) -> Result<Ran, Fail> {
    let alloc = rt.alloc();
    let input = concat(rt, input)?;
    let mut host = host_of(alloc, bytes, fails, &input)?;
    let status = status_of(rt, &["script", "folder"], &mut host)?;
    let output = output_of(alloc, &host)?;
    let strip = strip_after(alloc, host, pick)?;
    Ok(Ran {
        status,
        output,
        strip,
    })
}

/// A session over a strip that does not fail ends well and puts this. The strip that it leaves is the answer.
fn goes_on(
    rt: &(impl Abort + AllocGlobal),
    bytes: &[u8],
    input: &[&[u8]],
    output: &[&[u8]],
) -> Result<Vec<u8>, Fail> {
    let ran = run_over(rt, bytes, &[], input, 1)?;
    let output = concat(rt, output)?;
    assert!(rt; ran.came_to(0, &output));
    Ok(ran.strip)
}

const DONE_1: &[u8] = &[0, 0, 0, 9, 0x81, 0, 0, 0, 0, 0, 0, 0, 1];

#[test]
fn a_session_goes_on_where_the_last_one_ended(rt: HostRuntime) -> Result<(), Fail> {
    let delete_a: &[u8] = &[0, 0, 0, 4, 2, 0, 1, 0x61];
    let absent_2: &[u8] = &[0, 0, 0, 9, 0x83, 0, 0, 0, 0, 0, 0, 0, 2];
    let first = goes_on(&rt, &[], &[PUT, QUIT], &[DONE_0, BYE])?;
    let input: &[&[u8]] = &[GET, delete_a, GET, QUIT];
    let second = goes_on(&rt, &first, input, &[VALUE_1, DONE_1, absent_2, BYE])?;
    let third = goes_on(&rt, &second, &[GET, QUIT], &[absent_2, BYE])?;
    assert!(rt; are(Some(&third), &second));
    Ok(())
}

#[test]
fn a_frame_that_follows_has_the_next_number(rt: HostRuntime) -> Result<(), Fail> {
    let first = goes_on(&rt, &[], &[PUT, QUIT], &[DONE_0, BYE])?;
    let second = goes_on(&rt, &first, &[PUT, QUIT], &[DONE_1, BYE])?;
    // The number goes on, and the ordinals of the caller begin again.
    let frames = [frame_of(&rt, 0, 0, &[PUT])?, frame_of(&rt, 1, 0, &[PUT])?];
    let strip = concat(&rt, &[HEADER, &frames[0], &frames[1], &[0]])?;
    assert!(rt; are(Some(&second), &strip));
    Ok(())
}

/// Whether a GET of the key over this strip finds it.
fn is_found(rt: &(impl Abort + AllocGlobal), strip: &[u8]) -> Result<bool, Fail> {
    let ran = run_over(rt, strip, &[], &[GET, QUIT], 1)?;
    let value = concat(rt, &[VALUE_1, BYE])?;
    let absent = concat(rt, &[ABSENT_0, BYE])?;
    let found = ran.came_to(0, &value);
    assert!(rt; found || ran.came_to(0, &absent));
    Ok(found)
}

/// After a run that failed at these calls and then crashed, a synced PUT is there, and another is there or not.
fn survives(rt: &(impl Abort + AllocGlobal), fails: &[u64], pick: u64) -> Result<(), Fail> {
    let ran = run_over(rt, &[], fails, &[PUT, SYNC, QUIT], pick)?;
    let all_well = concat(rt, &[DONE_0, SYNCED_1, BYE])?;
    let synced = are(Some(&ran.output), &all_well);
    assert!(rt; is_found(rt, &ran.strip)? || !synced);
    Ok(())
}

/// All calls of a run: 0 to 10 open the strip, 11 to 14 are the SYNC's, and those after them the closing flush's.
const CALLS: &[u64] = &[
    0, 1, 2, 3, 4, 5, 6, 7, 8, 9, 10, 11, 12, 13, 14, 15, 16, 17, 18, 19,
];

#[test]
fn each_failing_call_and_each_crash_leave_what_was_synced(rt: HostRuntime) -> Result<(), Fail> {
    for from in 0..16 {
        let (_before, rest) = CALLS.split_at(from);
        let (alone, _after) = rest.split_at(1);
        for pick in 0..4 {
            survives(&rt, alone, pick)?;
            survives(&rt, rest, pick)?;
        }
    }
    Ok(())
}

/// PUT `b` = `1`.
const PUT_B: &[u8] = &[0, 0, 0, 9, 1, 0, 1, 0x62, 0, 0, 0, 1, 0x31];

const GET_B: &[u8] = &[0, 0, 0, 4, 3, 0, 1, 0x62];

/// The value `1` at front 2.
const VALUE_2: &[u8] = &[
    0, 0, 0, 0x0E, 0x82, 0, 0, 0, 0, 0, 0, 0, 2, 0, 0, 0, 1, 0x31,
];

/// Two PUTs, each with a SYNC, over a strip of which these calls fail, and then a crash. What is read afterwards is this.
fn leaves(
    rt: &(impl Abort + AllocGlobal),
    fails: &[u64],
    pick: u64,
    found: &[&[u8]],
) -> Result<(), Fail> {
    let ran = run_over(rt, &[], fails, &[PUT, SYNC, PUT_B, SYNC, QUIT], pick)?;
    goes_on(rt, &ran.strip, &[GET, GET_B, QUIT], found)?;
    Ok(())
}

#[test]
fn a_frame_is_there_from_its_gate_on(rt: HostRuntime) -> Result<(), Fail> {
    let one: &[&[u8]] = &[VALUE_1, ABSENT_1, BYE];
    let two: &[&[u8]] = &[VALUE_2, VALUE_2, BYE];
    // The second frame's gate, which its SYNC and then the closing flush fail to open. Its body was synced before.
    leaves(&rt, &[17, 18], 0, one)?;
    leaves(&rt, &[17, 18], 1, one)?;
    leaves(&rt, &[17, 18], 2, one)?;
    // A write that failed may yet be done: pick 3 leaves an open gate.
    leaves(&rt, &[17, 18], 3, two)?;
    for pick in 0..4 {
        leaves(&rt, &[], pick, two)?;
    }
    Ok(())
}

/// PUT `k` and two digits = `v`.
fn put_of(number: u8) -> [u8; 15] {
    let tens = (number / 10).wrapping_add(0x30);
    let ones = (number % 10).wrapping_add(0x30);
    [0, 0, 0, 0x0B, 1, 0, 3, 0x6B, tens, ones, 0, 0, 0, 1, 0x76]
}

/// So many PUTs of different keys, and their replies.
fn puts_and_replies(
    rt: &(impl Abort + AllocGlobal),
    count: u8,
) -> Result<(Vec<u8>, Vec<u8>), Fail> {
    let mut puts = Vec::new(rt.alloc());
    let mut replies = Vec::new(rt.alloc());
    for number in 0..count {
        puts.extend_from_slice(&put_of(number))?;
        replies.extend_from_slice(&[0, 0, 0, 9, 0x81, 0, 0, 0, 0, 0, 0, 0, number])?;
    }
    Ok((puts, replies))
}

/// GET `k40`.
const GET_K40: &[u8] = &[0, 0, 0, 6, 3, 0, 3, 0x6B, 0x34, 0x30];

/// The value `v` at front 65.
const VALUE_65: &[u8] = &[
    0, 0, 0, 0x0E, 0x82, 0, 0, 0, 0, 0, 0, 0, 65, 0, 0, 0, 1, 0x76,
];

#[test]
fn one_of_many_keys_is_read_back(rt: HostRuntime) -> Result<(), Fail> {
    let (puts, replies) = puts_and_replies(&rt, 65)?;
    let strip = goes_on(
        &rt,
        &[],
        &[&puts, GET_K40, QUIT],
        &[&replies, VALUE_65, BYE],
    )?;
    goes_on(&rt, &strip, &[GET_K40, QUIT], &[VALUE_65, BYE])?;
    Ok(())
}
