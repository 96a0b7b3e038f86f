//! A source in memory that never fails.
ghost use Rattle.std.specs.Prelude.{◌≡◌, ◌<◌, min, Some, Ok, IfOk, drop, length};
ghost use Rattle.fault_count.specs.Causes.{HasCause};
ghost use Rattle.link_model.specs.Streams.{TakesFront, OneFault};

use crate::failed::Failed;
use crate::filling::copy_front;
use crate::source::Source;
use std::marker::Model;

/// Bytes in memory that a source gives, with no fault.
#[derive(Drop)]
pub struct SteadySource {
    bytes: Vec<u8>,
    at: usize,
}

impl Model for SteadySource {
    ghost use Rattle.std.specs.Prelude.{◌≤◌, vec_len, drop};
    ghost use Rattle.link_model.specs.MemoryStreams.{SteadySourceState};

    ghost Value = { SteadySourceState };

    ghost view = { λ s. record { bytes = drop s.at s.bytes.items } };

    ghost invariant = { λ s. s.at ≤ vec_len s.bytes };
}

impl SteadySource {
    /// A source of `bytes`. It takes no memory.
    pub fn new(bytes: Vec<u8>) -> SteadySource
        ensures { result ≡ record { bytes = bytes.items } }
    {
        SteadySource { bytes, at: 0 }
    }

    /// The bytes that are left.
    pub fn remaining(&self) -> &[u8]
        ensures { result.now ≡ self.now.bytes }
    {
        let (_, rest) = self.bytes.as_slice().split_at(self.at);
        rest
    }
}

impl Source for SteadySource {
    ghost left = { λ s. Some s.bytes };

    ghost faults = { λ _. 0 };

    fn take(&mut self, into: &mut [u8]) -> Result<usize, Failed>
        requires { 0 < length into.old }
        ensures bytes { TakesFront (Some self.old.bytes) (Some self.new.bytes) result into.new }
        ensures cause { HasCause OneFault 0 0 result }
        ensures count { result ≡ Ok (min (length into.old) (length self.old.bytes)) }
        ensures rest { IfOk result (λ n. drop n into.new ≡ drop n into.old) }
    {
        let (_, rest) = self.bytes.as_slice().split_at(self.at);
        let count = copy_front(rest, into);
        self.at += count;
        Ok(count)
    }
}
