//! Requests and replies written as bytes. Each is added whole, or not at all.
ghost use Rattle.std.specs.Prelude.{◌≡◌, ◌+◌, ◌≤◌, ◌<◌, ◌^◌, ◌∷◌, ◌++◌, length, vec_capacity, OnOk, OnErr, IsOk};
ghost use Rattle.std.specs.Int.{w32, w64, to_be_bytes};
ghost use Rattle.wire_protocol.specs.Grammar.{key_field, value_field, request_body, reply_body, spell_request, spell_reply};
ghost use Rattle.wire_protocol.specs.declared.limits.TheConstants.{LENGTH_SIZE};

use crate::codes::{
    ABSENT, BAD_MESSAGE, BYE, DELETE, DEVICE_FAULT, DONE, GET, HISTORY_SPENT, NUMBERS_SPENT,
    OUT_OF_MEMORY, PUT, QUIT, SYNC, SYNCED, VALUE,
};
use crate::limits::{BODY_MAX, LENGTH_SIZE, MESSAGE_MAX, REPLY_MAX};
use history_core::{Reply, Request};
use rdb_base::{Key, NoMemory, Value};

fn add_key(out: &mut Vec<u8>, key: &Key) -> Result<(), NoMemory>
    ensures ok { OnOk result (out.new.items ≡ out.old.items ++ key_field key.now) }
    ensures room { length out.old.items + length (key_field key.now) ≤ vec_capacity out.old → IsOk result }
    ensures capacity { vec_capacity out.old ≤ vec_capacity out.new }
{
    let bytes = key.as_bytes();
    out.extend_from_slice(&(bytes.len() as u16).to_be_bytes())?;
    out.extend_from_slice(bytes)?;
    Ok(())
}

fn add_value(out: &mut Vec<u8>, value: &Value) -> Result<(), NoMemory>
    ensures ok { OnOk result (out.new.items ≡ out.old.items ++ value_field value.now) }
    ensures room { length out.old.items + length (value_field value.now) ≤ vec_capacity out.old → IsOk result }
    ensures capacity { vec_capacity out.old ≤ vec_capacity out.new }
{
    let bytes = value.as_bytes();
    out.extend_from_slice(&(bytes.len() as u32).to_be_bytes())?;
    out.extend_from_slice(bytes)?;
    Ok(())
}

/// Adds a code and a number.
fn add_numbered(out: &mut Vec<u8>, code: u8, number: u64) -> Result<(), NoMemory>
    ensures ok { OnOk result (out.new.items ≡ out.old.items ++ (code ∷ to_be_bytes w64 number)) }
    ensures room { length out.old.items + 9 ≤ vec_capacity out.old → IsOk result }
    ensures capacity { vec_capacity out.old ≤ vec_capacity out.new }
{
    out.push(code)?;
    out.extend_from_slice(&number.to_be_bytes())?;
    Ok(())
}

/// Adds the length of a body.
fn add_length(out: &mut Vec<u8>, len: usize) -> Result<(), NoMemory>
    requires { len < 2 ^ 32 }
    ensures ok { OnOk result (out.new.items ≡ out.old.items ++ to_be_bytes w32 len) }
    ensures room { length out.old.items + LENGTH_SIZE ≤ vec_capacity out.old → IsOk result }
    ensures capacity { vec_capacity out.old ≤ vec_capacity out.new }
{
    out.extend_from_slice(&(len as u32).to_be_bytes())?;
    Ok(())
}

/// How many bytes the body of a request has.
fn request_body_len(request: &Request) -> usize
    ensures length { result ≡ length (request_body request.now) }
    ensures most { result ≤ BODY_MAX }
{
    match request {
        Request::Put { row } => 7 + row.key.as_bytes().len() + row.value.as_bytes().len(),
        Request::Delete { key } | Request::Get { key } => 3 + key.as_bytes().len(),
        Request::Sync | Request::Quit => 1,
    }
}

fn add_request_body(out: &mut Vec<u8>, request: &Request) -> Result<(), NoMemory>
    ensures ok { OnOk result (out.new.items ≡ out.old.items ++ request_body request.now) }
    ensures room { length out.old.items + length (request_body request.now) ≤ vec_capacity out.old → IsOk result }
    ensures capacity { vec_capacity out.old ≤ vec_capacity out.new }
{
    match request {
        Request::Put { row } => {
            out.push(PUT)?;
            add_key(out, &row.key)?;
            add_value(out, &row.value)?;
        }
        Request::Delete { key } => {
            out.push(DELETE)?;
            add_key(out, key)?;
        }
        Request::Get { key } => {
            out.push(GET)?;
            add_key(out, key)?;
        }
        Request::Sync => out.push(SYNC)?,
        Request::Quit => out.push(QUIT)?,
    }
    Ok(())
}

/// Adds the spelling of a request. If memory is refused, it adds nothing.
pub fn spell_request(request: &Request, out: &mut Vec<u8>) -> Result<(), NoMemory>
    ensures ok { OnOk result (out.new.items ≡ out.old.items ++ spell_request request.now) }
    ensures err { OnErr result (out.new.items ≡ out.old.items) }
    ensures most { length (spell_request request.now) ≤ MESSAGE_MAX }
    ensures room { length out.old.items + length (spell_request request.now) ≤ vec_capacity out.old → IsOk result }
    ensures capacity { vec_capacity out.old ≤ vec_capacity out.new }
{
    let len = request_body_len(request);
    out.reserve(LENGTH_SIZE + len)?;

    // From here on nothing is refused.
    add_length(out, len).unwrap();
    add_request_body(out, request).unwrap();
    Ok(())
}

/// How many bytes the body of a reply has.
fn reply_body_len(reply: &Reply) -> usize
    ensures length { result ≡ length (reply_body reply.now) }
    ensures most { LENGTH_SIZE + result ≤ REPLY_MAX }
{
    match reply {
        Reply::Value { front: _, value } => 13 + value.as_bytes().len(),
        Reply::Done { number: _ } | Reply::Absent { front: _ } | Reply::Synced { number: _ } => 9,
        Reply::HistorySpent { number: _ } | Reply::NumbersSpent { next: _ } => 9,
        Reply::BadMessage { at: _, code: _ } => 10,
        Reply::DeviceFault { device: _ } => 2,
        Reply::Bye | Reply::OutOfMemory => 1,
    }
}

fn add_reply_body(out: &mut Vec<u8>, reply: &Reply) -> Result<(), NoMemory>
    ensures ok { OnOk result (out.new.items ≡ out.old.items ++ reply_body reply.now) }
    ensures room { length out.old.items + length (reply_body reply.now) ≤ vec_capacity out.old → IsOk result }
    ensures capacity { vec_capacity out.old ≤ vec_capacity out.new }
{
    match reply {
        Reply::Done { number } => add_numbered(out, DONE, *number)?,
        Reply::Value { front, value } => {
            add_numbered(out, VALUE, *front)?;
            add_value(out, value)?;
        }
        Reply::Absent { front } => add_numbered(out, ABSENT, *front)?,
        Reply::Synced { number } => add_numbered(out, SYNCED, *number)?,
        Reply::Bye => out.push(BYE)?,
        Reply::BadMessage { at, code } => {
            add_numbered(out, BAD_MESSAGE, *at)?;
            out.push(*code)?;
        }
        Reply::DeviceFault { device } => {
            out.push(DEVICE_FAULT)?;
            out.push(*device)?;
        }
        Reply::OutOfMemory => out.push(OUT_OF_MEMORY)?,
        Reply::HistorySpent { number } => add_numbered(out, HISTORY_SPENT, *number)?,
        Reply::NumbersSpent { next } => add_numbered(out, NUMBERS_SPENT, *next)?,
    }
    Ok(())
}

/// Adds the spelling of a reply. If memory is refused, it adds nothing.
pub fn spell_reply(reply: &Reply, out: &mut Vec<u8>) -> Result<(), NoMemory>
    ensures ok { OnOk result (out.new.items ≡ out.old.items ++ spell_reply reply.now) }
    ensures err { OnErr result (out.new.items ≡ out.old.items) }
    ensures most { length (spell_reply reply.now) ≤ REPLY_MAX }
    ensures room { length out.old.items + length (spell_reply reply.now) ≤ vec_capacity out.old → IsOk result }
    ensures capacity { vec_capacity out.old ≤ vec_capacity out.new }
{
    let len = reply_body_len(reply);
    out.reserve(LENGTH_SIZE + len)?;

    // From here on nothing is refused.
    add_length(out, len).unwrap();
    add_reply_body(out, reply).unwrap();
    Ok(())
}
