//! Reads, writes and flushes that go on where a signal interrupts them.
ghost use Rattle.std.specs.Prelude.{◌≡◌, ◌≤◌, true, length, IfOk, OnOk};
ghost use Rattle.std.specs.Io.KnownBytes.{Keeps, ReadConsumes};
ghost use Rattle.link_model.specs.Attempts.{HasTried, WritesFront};

use crate::attempts::{Attempts, CallError};
use crate::failed::Failed;
use crate::limits::INTERRUPTS_MAX;
use std::io::{Read, Write};

impl<R: Read> Attempts<R> {
    /// Reads once, and again where a signal interrupts it. The answer 0 is the end of the input.
    pub(crate) fn read_some(&mut self, into: &mut [u8]) -> Result<usize, Failed>
        ensures bound { IfOk result (λ n. n ≤ length into.new) }
        ensures bytes { ReadConsumes (R.remaining self.old.stream) (R.remaining self.new.stream) result into.new }
        ensures calls { HasTried self.old.counts self.new.counts result }
    {
        let mut interrupts = 0;
        'reads: while interrupts < INTERRUPTS_MAX {
            match self.read(into) {
                Ok(count) => return Ok(count),
                Err(CallError::Interrupted) => interrupts += 1,
                Err(CallError::Failed) => return Err(Failed),
            }
        }
        Err(Failed)
    }
}

impl<W: Write> Attempts<W> {
    /// Writes the bytes in order. The error is how many were written, fewer than all.
    pub(crate) fn write_front(&mut self, bytes: &[u8]) -> Result<(), usize>
        ensures bytes { WritesFront (W.contents self.old.stream) (W.contents self.new.stream) result bytes.now }
        ensures calls { HasTried self.old.counts self.new.counts result }
    {
        let mut written = 0;
        let mut interrupts = 0;
        'writes: while written < bytes.len() {
            if interrupts == INTERRUPTS_MAX {
                return Err(written);
            }
            let (_, rest) = bytes.split_at(written);
            match self.write(rest) {
                Ok(count) => written += count,
                Err(CallError::Interrupted) => interrupts += 1,
                Err(CallError::Failed) => return Err(written),
            }
        }
        Ok(())
    }

    /// Flushes, and again where a signal interrupts it.
    pub(crate) fn flush_all(&mut self) -> Result<(), Failed>
        ensures bytes { Keeps (W.contents self.old.stream) (W.contents self.new.stream) }
        ensures calls { HasTried self.old.counts self.new.counts result }
        ensures flushed { OnOk result (self.new.is_flushed ≡ true) }
    {
        let mut interrupts = 0;
        'flushes: while interrupts < INTERRUPTS_MAX {
            match self.flush() {
                Ok(()) => return Ok(()),
                Err(CallError::Interrupted) => interrupts += 1,
                Err(CallError::Failed) => return Err(Failed),
            }
        }
        Err(Failed)
    }
}
