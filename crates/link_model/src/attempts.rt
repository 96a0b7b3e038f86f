//! The edge of the system, one call each. Calls that fail or are interrupted are counted here alone.
ghost use Rattle.std.specs.Prelude.{◌≡◌, ◌↔◌, ◌<◌, ◌≤◌, false, true, length, IfOk, OnOk};
ghost use Rattle.std.specs.IoError.{error_kind};
ghost use Rattle.std.specs.Io.KnownBytes.{Keeps, ReadConsumes, WriteAppends};
ghost use Rattle.link_model.specs.Attempts.{IsCounted, IsCountedAs};

use fault_count::FaultCount;
use std::io;
use std::io::{ErrorKind, Read, Write};

/// Why one call did nothing.
#[derive(Clone, Copy, PartialEq, Eq)]
pub(crate) enum CallError {
    /// A signal interrupted it.
    Interrupted,
    /// It failed, or a writer took nothing.
    Failed,
}

/// How many calls failed, and how many were interrupted.
#[derive(Drop)]
pub(crate) struct CallCounts {
    failures: FaultCount,
    interrupts: FaultCount,
}

/// A reader or a writer of the system, with the counts of its calls.
#[derive(Drop)]
pub(crate) struct Attempts<T> {
    stream: T,
    counts: CallCounts,
    /// Whether a flush succeeded after the last write.
    is_flushed: bool,
}

impl CallCounts {
    fn count(&mut self, error: &io::Error) -> CallError
        ensures counted { IsCountedAs self.old self.new result }
        ensures kind { (result ≡ CallError.Interrupted) ↔ (error_kind error.now ≡ ErrorKind.Interrupted) }
    {
        if error.kind() == ErrorKind::Interrupted {
            self.interrupts.rise();
            CallError::Interrupted
        } else {
            self.failures.rise();
            CallError::Failed
        }
    }
}

impl<T> Attempts<T> {
    pub(crate) fn new(stream: T) -> Attempts<T>
        ensures stream { result.stream ≡ stream }
        ensures counts { (result.counts.failures ≡ 0) × (result.counts.interrupts ≡ 0) }
        ensures flushed { result.is_flushed ≡ true }
    {
        Attempts {
            stream,
            counts: CallCounts {
                failures: FaultCount::new(),
                interrupts: FaultCount::new(),
            },
            is_flushed: true,
        }
    }
}

impl<R: Read> Attempts<R> {
    /// Reads once. The answer 0 is the end of the input.
    pub(crate) fn read(&mut self, into: &mut [u8]) -> Result<usize, CallError>
        ensures bound { IfOk result (λ n. n ≤ length into.new) }
        ensures bytes { ReadConsumes (R.remaining self.old.stream) (R.remaining self.new.stream) result into.new }
        ensures counts { IsCounted self.old.counts self.new.counts result }
    {
        match self.stream.read(into) {
            Ok(count) => Ok(count),
            Err(error) => Err(self.counts.count(&error)),
        }
    }
}

impl<W: Write> Attempts<W> {
    /// Writes a front of the bytes, and not an empty one.
    pub(crate) fn write(&mut self, bytes: &[u8]) -> Result<usize, CallError>
        ensures bound { IfOk result (λ n. (0 < n) × (n ≤ length bytes.now)) }
        ensures bytes { WriteAppends (W.contents self.old.stream) (W.contents self.new.stream) result bytes.now }
        ensures counts { IsCounted self.old.counts self.new.counts result }
        ensures unflushed { self.new.is_flushed ≡ false }
    {
        self.is_flushed = false;
        match self.stream.write(bytes) {
            Ok(0) => {
                self.counts.failures.rise();
                Err(CallError::Failed)
            }
            Ok(count) => Ok(count),
            Err(error) => Err(self.counts.count(&error)),
        }
    }

    /// Flushes once.
    pub(crate) fn flush(&mut self) -> Result<(), CallError>
        ensures bytes { Keeps (W.contents self.old.stream) (W.contents self.new.stream) }
        ensures counts { IsCounted self.old.counts self.new.counts result }
        ensures flushed { OnOk result (self.new.is_flushed ≡ true) }
    {
        match self.stream.flush() {
            Ok(()) => {
                self.is_flushed = true;
                Ok(())
            }
            Err(error) => Err(self.counts.count(&error)),
        }
    }
}
