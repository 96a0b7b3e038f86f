//! One message after another, from bytes that come in any pieces.
ghost use Rattle.std.specs.Prelude.{◌≡◌, ◌+◌, ◌≤◌, ◌<◌, ◌^◌, ◌++◌, [], length, take, IfOk, OnErr, Ok, Some, None};
ghost use Rattle.fault_count.specs.Causes.{HasCause};
ghost use Rattle.link_model.specs.Streams.{OneFault};
ghost use Rattle.wire_protocol.specs.declared.limits.TheConstants.{LENGTH_SIZE};
ghost use Rattle.wire_protocol.specs.Messages.{wanted, body_length, IsWithin};
ghost use Rattle.wire_protocol.specs.Decoding.{MessageAnswer, DecoderAnswer, Takes, next_message};

use crate::body_error::BodyError;
use crate::codes::BAD_LENGTH;
use crate::filling::{put_after, take_after};
use crate::limits::{BODY_MAX, LENGTH_SIZE, MESSAGE_MAX};
use crate::reading::request_of;
use crate::wire_error::WireError;
use history_core::Request;
use link_model::{Failed, Source};
use rdb_base::NoMemory;
use std::alloc::Global;
use std::marker::Model;

/// What came of one message. Contracts see its bytes, and where in the input it begins.
#[derive(Drop)]
pub struct Decoder {
    at: u64,
    len: usize,
    memory: Vec<u8>,
}

impl Model for Decoder {
    ghost use Rattle.std.specs.Prelude.{take};
    ghost use Rattle.wire_protocol.specs.Messages.{Held, IsHeld};

    ghost Value = { Held };

    ghost view = { λ d. record { at = d.at; bytes = take d.len d.memory.items } };

    ghost invariant = { λ d. IsHeld d.at d.len d.memory.items };
}

fn length_of(bytes: &[u8]) -> usize
    requires { LENGTH_SIZE ≤ length bytes.now }
    ensures { result ≡ body_length bytes.now }
{
    u32::from_be_bytes([bytes[0], bytes[1], bytes[2], bytes[3]]) as usize
}

fn wanted_of(bytes: &[u8]) -> usize
    requires { IsWithin bytes.now }
    ensures { result ≡ wanted bytes.now }
{
    if bytes.len() < LENGTH_SIZE {
        return LENGTH_SIZE - bytes.len();
    }
    let body = length_of(bytes);
    if body == 0 || body > BODY_MAX {
        return 0;
    }
    LENGTH_SIZE + body - bytes.len()
}

fn message_of(alloc: Global, held: &[u8]) -> Result<Option<Request>, BodyError>
    requires { IsWithin held.now }
    ensures { MessageAnswer result held.now }
{
    if wanted_of(held) != 0 {
        return Ok(None);
    }
    let len = length_of(held);
    if len == 0 || len > BODY_MAX {
        return Err(BodyError::Bad(BAD_LENGTH));
    }
    let (_, body) = held.split_at(LENGTH_SIZE);
    match request_of(alloc, body) {
        Ok(request) => Ok(Some(request)),
        Err(error) => Err(error),
    }
}

impl Decoder {
    /// An empty decoder, with room for the largest message.
    pub fn make(alloc: Global) -> Result<Decoder, NoMemory>
        ensures { IfOk result (λ d. d ≡ record { at = 0; bytes = [] }) }
    {
        let memory = Vec::from_elem(alloc, 0, MESSAGE_MAX)?;
        Ok(Decoder {
            at: 0,
            len: 0,
            memory,
        })
    }

    /// How many bytes of the input came.
    pub fn taken(&self) -> u64
        ensures { result ≡ self.now.at + length self.now.bytes }
    {
        self.at + self.len as u64
    }

    /// Where in the input the message begins.
    pub fn place(&self) -> u64
        ensures { result ≡ self.now.at }
    {
        self.at
    }

    fn held(&self) -> &[u8]
        ensures bytes { result.now ≡ self.now.bytes }
        ensures within { IsWithin result.now }
    {
        let (held, _) = self.memory.as_slice().split_at(self.len);
        held
    }

    /// How many bytes the length still lacks, or the body once the length is there. It is 0 where a whole message is
    /// held, or its length is refused.
    pub fn want(&self) -> usize
        ensures wanted { result ≡ wanted self.now.bytes }
        ensures most { result ≤ BODY_MAX }
        ensures room { length self.now.bytes + result ≤ MESSAGE_MAX }
        ensures place { self.now.at + length self.now.bytes ≤ 2 ^ 63 }
    {
        let _at = self.at;
        wanted_of(self.held())
    }

    fn hold(&mut self, part: &[u8])
        requires wanted { length part.now ≤ wanted self.old.bytes }
        requires most { self.old.at + (length self.old.bytes + length part.now) ≤ 2 ^ 63 }
        ensures { self.new ≡ record { at = self.old.at; bytes = self.old.bytes ++ part.now } }
    {
        put_after(&mut self.memory, self.len, part);
        self.len += part.len();
    }

    /// Takes the whole piece, or as much as the message at hand lacks where that is less.
    pub fn feed(&mut self, piece: &[u8]) -> usize
        requires { self.old.at + (length self.old.bytes + length piece.now) ≤ 2 ^ 63 }
        ensures taken { self.new ≡ record { at = self.old.at; bytes = self.old.bytes ++ take result piece.now } }
        ensures most { result ≤ length piece.now }
        ensures all { result < length piece.now → wanted self.new.bytes ≡ 0 }
        ensures whole { length piece.now ≤ wanted self.old.bytes → result ≡ length piece.now }
    {
        let first = self.want().min(piece.len());
        let (front, rest) = piece.split_at(first);
        self.hold(front);
        let second = self.want().min(rest.len());
        let (back, _) = rest.split_at(second);
        self.hold(back);
        first + second
    }

    /// Lets a source fill what the length or the body still lacks, in one call of it, and answers how many bytes came:
    /// at most `most`, and none only at the end of the input.
    pub fn take_from<R: Source>(&mut self, source: &mut R, most: usize) -> Result<usize, Failed>
        requires lacks { 0 < wanted self.old.bytes }
        requires some { 0 < most }
        requires place { self.old.at + (length self.old.bytes + most) ≤ 2 ^ 63 }
        ensures taken { IfOk result (Takes self.old (R.left source.old) self.new (R.left source.new) most) }
        ensures kept { OnErr result (self.new ≡ self.old) }
        ensures left { OnErr result (R.left source.new ≡ R.left source.old) }
        ensures cause { HasCause OneFault (R.faults source.old) (R.faults source.new) result }
    {
        let end = self.len + self.want().min(most);
        let count = take_after(&mut self.memory, self.len, end, source)?;
        self.len += count;
        Ok(count)
    }

    /// The request of the held message, if it is whole. The message is then dropped.
    pub fn request(&mut self, alloc: Global) -> Result<Option<Request>, WireError>
        ensures { DecoderAnswer self.old result self.new }
    {
        match message_of(alloc, self.held()) {
            Ok(None) => Ok(None),
            Ok(Some(request)) => {
                self.next();
                Ok(Some(request))
            }
            Err(BodyError::Bad(code)) => Err(WireError::BadMessage { at: self.at, code }),
            Err(BodyError::Memory) => {
                self.next();
                Err(WireError::Memory)
            }
        }
    }

    fn next(&mut self)
        ensures { self.new ≡ next_message self.old }
    {
        self.at += self.len as u64;
        self.len = 0;
    }
}
