//! A sink over a writer of the system.
ghost use Rattle.std.specs.Prelude.{◌≡◌, None};

use crate::failed::Failed;
use crate::outgoing::Outgoing;
use crate::sink::Sink;
use fault_count::FaultCount;
use std::alloc::Global;
use std::io::Write;
use std::sync::{Arc, Mutex};

/// A sink over a writer, made by `stream_pair`. It gathers what is put, up to 65,536 bytes. It passes
/// that on when the next piece does not fit after it, at a put of an empty piece, and before its
/// source waits for input. What is still held when both are let go is lost, so the last put is of
/// an empty piece.
///
/// Contracts do not see its bytes. Its count of faults stands still at 2^64 - 1.
#[derive(Drop)]
pub struct WriterSink<W> {
    pub(crate) outgoing: Arc<Mutex<Outgoing<W>>, Global>,
    pub(crate) faults: FaultCount,
    /// Whether the last piece was empty, and all that was held was passed on.
    pub(crate) is_passed_on: bool,
}

impl<W> WriterSink<W> {
    /// How often `put` failed.
    pub fn faults(&self) -> u64
        ensures { result ≡ self.now.faults }
    {
        self.faults.get()
    }
}

impl<W: Write + Drop> WriterSink<W> {
    fn put_gathered(&self, piece: &[u8]) -> Result<(), Failed> {
        match self.outgoing.try_lock() {
            Some(mut outgoing) => outgoing.put(piece),
            None => Err(Failed),
        }
    }
}

impl<W: Write + Drop> Sink for WriterSink<W> {
    ghost written = { λ _. None };

    ghost faults = { λ k. k.faults };

    ghost is_passed_on = { λ k. k.is_passed_on };

    fn put(&mut self, piece: &[u8]) -> Result<(), Failed> {
        match self.put_gathered(piece) {
            Ok(()) => {
                self.is_passed_on = piece.is_empty();
                Ok(())
            }
            Err(Failed) => {
                self.is_passed_on = false;
                self.faults.rise();
                Err(Failed)
            }
        }
    }
}
