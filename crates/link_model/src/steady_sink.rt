//! A sink in memory that fails only where its room is passed.
ghost use Rattle.std.specs.Prelude.{◌≡◌, ◌≤◌, [], true, length, Some, Ok, Err, IfOk};
ghost use Rattle.link_model.specs.Calls.{SteadyPutAnswer};
ghost use Rattle.fault_count.specs.Causes.{HasCause};
ghost use Rattle.link_model.specs.Streams.{PutsFront, OneFault};

use crate::failed::Failed;
use crate::sink::Sink;
use fault_count::FaultCount;
use std::alloc::{AllocError, Global};
use std::marker::Model;

/// Bytes in memory that a sink took, up to a room. The count of faults stands still at 2^64 - 1.
#[derive(Drop)]
pub struct SteadySink {
    bytes: Vec<u8>,
    room: u64,
    faults: FaultCount,
}

impl Model for SteadySink {
    ghost use Rattle.std.specs.Prelude.{◌≤◌, length, vec_capacity};
    ghost use Rattle.link_model.specs.MemoryStreams.{SteadySinkState};

    ghost Value = { SteadySinkState };

    ghost view = { λ k. record { bytes = k.bytes.items; room = k.room; faults = k.faults } };

    ghost invariant = { λ k. (length k.bytes.items ≤ k.room) × (k.room ≤ vec_capacity k.bytes) };
}

impl SteadySink {
    /// A sink with room for `room` bytes, all of whose memory it takes now. `AllocError` comes
    /// where memory has no such room.
    pub fn new(alloc: Global, room: u64) -> Result<SteadySink, AllocError>
        ensures { IfOk result (λ k. k ≡ record { bytes = []; room = room; faults = 0 }) }
    {
        let bytes = Vec::with_capacity(alloc, room as usize)?;
        Ok(SteadySink {
            bytes,
            room,
            faults: FaultCount::new(),
        })
    }

    /// The bytes that it took, never more than its room.
    pub fn as_bytes(&self) -> &[u8]
        ensures bytes { result.now ≡ self.now.bytes }
        ensures within { length self.now.bytes ≤ self.now.room }
    {
        self.bytes.as_slice()
    }

    /// How often `put` failed.
    pub fn faults(&self) -> u64
        ensures { result ≡ self.now.faults }
    {
        self.faults.get()
    }
}

impl Sink for SteadySink {
    ghost written = { λ k. Some k.bytes };

    ghost faults = { λ k. k.faults };

    ghost is_passed_on = { λ _. true };

    fn put(&mut self, piece: &[u8]) -> Result<(), Failed>
        ensures bytes { PutsFront (Some self.old.bytes) (Some self.new.bytes) result piece.now }
        ensures cause { HasCause OneFault self.old.faults self.new.faults result }
        ensures answer { SteadyPutAnswer self.old self.new result piece.now }
    {
        let space = self.room as usize - self.bytes.len();
        if space < piece.len() {
            let (front, _) = piece.split_at(space);
            self.bytes.extend_from_slice(front).unwrap();
            self.faults.rise();
            return Err(Failed);
        }
        self.bytes.extend_from_slice(piece).unwrap();
        Ok(())
    }
}
