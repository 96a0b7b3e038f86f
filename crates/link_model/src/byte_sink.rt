//! A sink in memory, some of whose calls fail on purpose.
ghost use Rattle.std.specs.Prelude.{◌≡◌, ◌≤◌, [], true, length, Some, Ok, Err, IfOk};
ghost use Rattle.link_model.specs.Calls.{PutAnswer};
ghost use Rattle.fault_count.specs.Causes.{HasCause};
ghost use Rattle.link_model.specs.Streams.{PutsFront, OneFault};

use crate::failed::Failed;
use crate::sink::Sink;
use fault_count::FaultCount;
use std::alloc::{AllocError, Global};
use std::marker::Model;

/// Bytes in memory that a sink took, up to a room. The calls of `put` whose numbers are listed
/// fail; they are counted from 0 over all calls, and the count stands still at 2^64 - 1.
#[derive(Drop)]
pub struct ByteSink {
    bytes: Vec<u8>,
    room: u64,
    failing: Vec<u64>,
    calls: u64,
    faults: FaultCount,
}

impl Model for ByteSink {
    ghost use Rattle.std.specs.Prelude.{◌≤◌, length, vec_capacity};
    ghost use Rattle.link_model.specs.MemoryStreams.{SinkState};

    ghost Value = { SinkState };

    ghost view = { λ k. record {
      bytes = k.bytes.items;
      room = k.room;
      failing = k.failing.items;
      calls = k.calls;
      faults = k.faults;
    } };

    ghost invariant = { λ k. (length k.bytes.items ≤ k.room) × (k.room ≤ vec_capacity k.bytes) };
}

impl ByteSink {
    /// A sink with room for `room` bytes, all of whose memory it takes now, and whose calls with
    /// the numbers `failing` fail. `AllocError` comes where memory has no such room.
    pub fn new(alloc: Global, room: u64, failing: Vec<u64>) -> Result<ByteSink, AllocError>
        ensures { IfOk result (λ k. k ≡ record {
          bytes = [];
          room = room;
          failing = failing.items;
          calls = 0;
          faults = 0;
        }) }
    {
        let bytes = Vec::with_capacity(alloc, room as usize)?;
        Ok(ByteSink {
            bytes,
            room,
            failing,
            calls: 0,
            faults: FaultCount::new(),
        })
    }

    /// The bytes that it took, never more than its room.
    pub fn as_bytes(&self) -> &[u8]
        ensures bytes { result.now ≡ self.now.bytes }
        ensures within { length self.now.bytes ≤ self.now.room }
    {
        self.bytes.as_slice()
    }

    /// How often `put` was called.
    pub fn calls(&self) -> u64
        ensures { result ≡ self.now.calls }
    {
        self.calls
    }

    /// How often `put` failed.
    pub fn faults(&self) -> u64
        ensures { result ≡ self.now.faults }
    {
        self.faults.get()
    }
}

impl Sink for ByteSink {
    ghost written = { λ k. Some k.bytes };

    ghost faults = { λ k. k.faults };

    ghost is_passed_on = { λ _. true };

    fn put(&mut self, piece: &[u8]) -> Result<(), Failed>
        ensures bytes { PutsFront (Some self.old.bytes) (Some self.new.bytes) result piece.now }
        ensures cause { HasCause OneFault self.old.faults self.new.faults result }
        ensures answer { PutAnswer self.old self.new result piece.now }
    {
        let call = self.calls;
        self.calls = self.calls.saturating_add(1);
        if self.failing.contains(&call) {
            self.faults.rise();
            return Err(Failed);
        }
        let space = self.room as usize - self.bytes.len();
        if space < piece.len() {
            let (front, _) = piece.split_at(space);
            self.bytes.extend_from_slice(front).unwrap();
            self.faults.rise();
            return Err(Failed);
        }
        self.bytes.extend_from_slice(piece).unwrap();
        Ok(())
    }
}
