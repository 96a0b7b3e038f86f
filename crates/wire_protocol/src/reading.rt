//! The fields of a body read from left to right, each test in its order.
ghost use Rattle.std.specs.Prelude.{◌≡◌, [], ◌∷◌, IfOk, IsOk, IsErrOf, Ok};
ghost use Rattle.std.specs.Int.{w16, w32};
ghost use Rattle.wire_protocol.specs.Reading.{Gives, GivesField, SpellsRequest, number_at, bytes_at, key_at, value_at, only_key_at, put_at, request_at};
ghost use Rattle.wire_protocol.specs.Grammar.{request_body, IsRequest};
ghost use Rattle.wire_protocol.specs.declared.codes.TheConstants.{SYNC, QUIT};

use crate::body_error::BodyError;
use crate::codes::{
    BAD_KEY, BAD_LENGTH, BAD_VALUE, CUT_FIELD, DELETE, GET, NO_REQUEST, PUT, QUIT, SYNC,
    TRAILING_BYTES,
};
use crate::refused::Refused;
use history_core::Request;
use rdb_base::{KEY_MAX, Key, Row, VALUE_MAX, Value};
use std::alloc::Global;

fn u16_at(bytes: &[u8]) -> Result<(u16, &[u8]), Refused>
    ensures { GivesField (λ x. (x.0, x.1.now)) result (number_at w16 bytes.now) }
{
    if bytes.len() < 2 {
        return Err(Refused { code: CUT_FIELD });
    }
    let (front, rest) = bytes.split_at(2);
    Ok((u16::from_be_bytes([front[0], front[1]]), rest))
}

fn u32_at(bytes: &[u8]) -> Result<(u32, &[u8]), Refused>
    ensures { GivesField (λ x. (x.0, x.1.now)) result (number_at w32 bytes.now) }
{
    if bytes.len() < 4 {
        return Err(Refused { code: CUT_FIELD });
    }
    let (front, rest) = bytes.split_at(4);
    Ok((
        u32::from_be_bytes([front[0], front[1], front[2], front[3]]),
        rest,
    ))
}

fn slice_at(len: usize, bytes: &[u8]) -> Result<(&[u8], &[u8]), Refused>
    ensures { GivesField (λ x. (x.0.now, x.1.now)) result (bytes_at len bytes.now) }
{
    if bytes.len() < len {
        return Err(Refused { code: CUT_FIELD });
    }
    Ok(bytes.split_at(len))
}

#[tactic(auto, unfolding(crate::specs::Reading::key_at))]
fn key_of(bytes: &[u8]) -> Result<(&[u8], &[u8]), Refused>
    ensures { GivesField (λ x. (x.0.now, x.1.now)) result (key_at bytes.now) }
{
    let (len, rest) = u16_at(bytes)?;
    let len = len as usize;
    if len == 0 {
        return Err(Refused { code: BAD_KEY });
    }
    if len > KEY_MAX {
        return Err(Refused { code: BAD_KEY });
    }
    slice_at(len, rest)
}

#[tactic(auto, unfolding(crate::specs::Reading::value_at))]
fn value_of(bytes: &[u8]) -> Result<(&[u8], &[u8]), Refused>
    ensures { GivesField (λ x. (x.0.now, x.1.now)) result (value_at bytes.now) }
{
    let (len, rest) = u32_at(bytes)?;
    let len = len as usize;
    if len > VALUE_MAX {
        return Err(Refused { code: BAD_VALUE });
    }
    slice_at(len, rest)
}

#[tactic(auto, unfolding(crate::specs::Reading::put_at))]
fn put_of(alloc: Global, bytes: &[u8]) -> Result<Request, BodyError>
    ensures exact { Gives (λ x. x) result (put_at bytes.now) }
    ensures memory { IsErrOf result BodyError.Memory → IsOk (put_at bytes.now) }
{
    let (key, rest) = key_of(bytes)?;
    let (value, rest) = value_of(rest)?;
    if !rest.is_empty() {
        return Err(BodyError::Bad(TRAILING_BYTES));
    }
    let Ok(key) = Key::try_new(alloc, key) else {
        return Err(BodyError::Memory);
    };
    let Ok(value) = Value::try_new(alloc, value) else {
        return Err(BodyError::Memory);
    };
    Ok(Request::Put {
        row: Row { key, value },
    })
}

/// The key that is all of a request's fields.
#[tactic(auto, unfolding(crate::specs::Reading::only_key_at))]
fn only_key_of(alloc: Global, bytes: &[u8]) -> Result<Key, BodyError>
    ensures exact { Gives (λ x. x) result (only_key_at bytes.now) }
    ensures memory { IsErrOf result BodyError.Memory → IsOk (only_key_at bytes.now) }
{
    let (key, rest) = key_of(bytes)?;
    if !rest.is_empty() {
        return Err(BodyError::Bad(TRAILING_BYTES));
    }
    let Ok(key) = Key::try_new(alloc, key) else {
        return Err(BodyError::Memory);
    };
    Ok(key)
}

#[tactic(auto, unfolding(crate::specs::Reading::request_at))]
fn body_of(alloc: Global, body: &[u8]) -> Result<Request, BodyError>
    ensures exact { Gives (λ x. x) result (request_at body.now) }
    ensures sync { body.now ≡ SYNC ∷ [] → result ≡ Ok Request.Sync }
    ensures quit { body.now ≡ QUIT ∷ [] → result ≡ Ok Request.Quit }
    ensures memory { IsErrOf result BodyError.Memory → IsOk (request_at body.now) }
{
    let [code, rest @ ..] = body else {
        return Err(BodyError::Bad(BAD_LENGTH));
    };
    match *code {
        PUT => put_of(alloc, rest),
        DELETE => {
            let key = only_key_of(alloc, rest)?;
            Ok(Request::Delete { key })
        }
        GET => {
            let key = only_key_of(alloc, rest)?;
            Ok(Request::Get { key })
        }
        SYNC if rest.is_empty() => Ok(Request::Sync),
        QUIT if rest.is_empty() => Ok(Request::Quit),
        SYNC | QUIT => Err(BodyError::Bad(TRAILING_BYTES)),
        _ => Err(BodyError::Bad(NO_REQUEST)),
    }
}

/// The request that a body spells.
pub fn request_of(alloc: Global, body: &[u8]) -> Result<Request, BodyError>
    // What is read is spelled so.
    ensures found { IfOk result (λ request. (body.now ≡ request_body request) × IsRequest request) }
    // What is spelled so is read, unless memory runs out.
    ensures only { (request : Request) → IsRequest request → body.now ≡ request_body request →
        Gives (λ x. x) result (Ok request) }
    // Which test fails first.
    ensures exact { Gives (λ x. x) result (request_at body.now) }
    // Only a request that holds bytes can be out of memory.
    ensures memory { IsErrOf result BodyError.Memory → SpellsRequest body.now }
{
    body_of(alloc, body)
}
