//! A source in memory, some of whose calls fail on purpose.
ghost use Rattle.std.specs.Prelude.{◌≡◌, ◌<◌, Some, Ok, Err, OnErr, IfOk, drop, length};
ghost use Rattle.link_model.specs.Calls.{TakeAnswer};
ghost use Rattle.fault_count.specs.Causes.{HasCause};
ghost use Rattle.link_model.specs.Streams.{TakesFront, OneFault};

use crate::failed::Failed;
use crate::filling::copy_front;
use crate::source::Source;
use fault_count::FaultCount;
use std::marker::Model;

/// Bytes in memory that a source gives. The calls of `take` whose numbers are listed fail; they
/// are counted from 0 over all calls, and the count stands still at 2^64 - 1.
#[derive(Drop)]
pub struct ByteSource {
    bytes: Vec<u8>,
    at: usize,
    failing: Vec<u64>,
    calls: u64,
    faults: FaultCount,
}

impl Model for ByteSource {
    ghost use Rattle.std.specs.Prelude.{◌≤◌, vec_len, drop};
    ghost use Rattle.link_model.specs.MemoryStreams.{SourceState};

    ghost Value = { SourceState };

    ghost view = { λ s. record {
      bytes = drop s.at s.bytes.items;
      failing = s.failing.items;
      calls = s.calls;
      faults = s.faults;
    } };

    ghost invariant = { λ s. s.at ≤ vec_len s.bytes };
}

impl ByteSource {
    /// A source of `bytes`, whose calls with the numbers `failing` fail. It takes no memory.
    pub fn new(bytes: Vec<u8>, failing: Vec<u64>) -> ByteSource
        ensures { result ≡ record { bytes = bytes.items; failing = failing.items; calls = 0; faults = 0 } }
    {
        ByteSource {
            bytes,
            at: 0,
            failing,
            calls: 0,
            faults: FaultCount::new(),
        }
    }

    /// The bytes that are left.
    pub fn remaining(&self) -> &[u8]
        ensures { result.now ≡ self.now.bytes }
    {
        let (_, rest) = self.bytes.as_slice().split_at(self.at);
        rest
    }

    /// How often `take` was called.
    pub fn calls(&self) -> u64
        ensures { result ≡ self.now.calls }
    {
        self.calls
    }

    /// How often `take` failed.
    pub fn faults(&self) -> u64
        ensures { result ≡ self.now.faults }
    {
        self.faults.get()
    }
}

impl Source for ByteSource {
    ghost left = { λ s. Some s.bytes };

    ghost faults = { λ s. s.faults };

    fn take(&mut self, into: &mut [u8]) -> Result<usize, Failed>
        requires { 0 < length into.old }
        ensures bytes { TakesFront (Some self.old.bytes) (Some self.new.bytes) result into.new }
        ensures cause { HasCause OneFault self.old.faults self.new.faults result }
        ensures answer { TakeAnswer self.old self.new result (length into.old) }
        ensures rest { IfOk result (λ n. drop n into.new ≡ drop n into.old) }
        ensures untouched { OnErr result (into.new ≡ into.old) }
    {
        let call = self.calls;
        self.calls = self.calls.saturating_add(1);
        if self.failing.contains(&call) {
            self.faults.rise();
            return Err(Failed);
        }
        let (_, rest) = self.bytes.as_slice().split_at(self.at);
        let count = copy_front(rest, into);
        self.at += count;
        Ok(count)
    }
}
