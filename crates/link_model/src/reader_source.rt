//! A source over a reader of the system.
ghost use Rattle.std.specs.Prelude.{◌≡◌, ◌<◌, [], None, Ok, IsOk, length, OnOk};
ghost use Rattle.std.specs.Io.KnownBytes.{prepend_known, IsAtEnd, Keeps, ReadConsumes};
ghost use Rattle.fault_count.specs.Causes.{HasCause};
ghost use Rattle.link_model.specs.Streams.{TakesFront, OneFault};

use crate::ahead::Ahead;
use crate::attempts::Attempts;
use crate::failed::Failed;
use crate::outgoing::{Outgoing, PassedOn};
use crate::source::Source;
use fault_count::FaultCount;
use std::alloc::Global;
use std::io::{Read, Write};
use std::sync::{Arc, Mutex};

/// A source over a reader, made by `stream_pair`. It reads ahead up to 65,536 bytes, and hands out
/// from them. Before it reads it passes on what its sink holds back, so no reply waits for input. If
/// that fails, the take has failed, and nothing of the input is lost.
///
/// Contracts do not see its bytes. Its count of faults stands still at 2^64 - 1.
#[derive(Drop)]
pub struct ReaderSource<R, W> {
    pub(crate) reader: Attempts<R>,
    pub(crate) ahead: Ahead,
    pub(crate) outgoing: Arc<Mutex<Outgoing<W>>, Global>,
    pub(crate) faults: FaultCount,
}

impl<R, W> ReaderSource<R, W> {
    /// How often `take` failed.
    pub fn faults(&self) -> u64
        ensures { result ≡ self.now.faults }
    {
        self.faults.get()
    }
}

impl<R: Read + Drop, W: Write + Drop> ReaderSource<R, W> {
    fn pass_on(&self) -> Result<PassedOn, Failed> {
        match self.outgoing.try_lock() {
            Some(mut outgoing) => outgoing.pass_on(),
            None => Err(Failed),
        }
    }

    /// Reads ahead, if nothing is left of what was read.
    fn read_ahead(&mut self) -> Result<(), Failed>
        ensures bytes { Keeps
            (prepend_known self.old.ahead (R.remaining self.old.reader.stream))
            (prepend_known self.new.ahead (R.remaining self.new.reader.stream)) }
        ensures end { OnOk result (self.new.ahead ≡ [] → IsAtEnd (R.remaining self.new.reader.stream)) }
        ensures faults { self.new.faults ≡ self.old.faults }
        ensures idle { 0 < length self.old.ahead → (result ≡ Ok tt) × (self.new ≡ self.old) }
    {
        if !self.ahead.is_empty() {
            return Ok(());
        }
        let passed = self.pass_on()?;
        self.ahead.fill(&mut self.reader, passed)
    }
}

impl<R: Read + Drop, W: Write + Drop> Source for ReaderSource<R, W> {
    ghost left = { λ _. None };

    ghost faults = { λ s. s.faults };

    fn take(&mut self, into: &mut [u8]) -> Result<usize, Failed>
        requires { 0 < length into.old }
        ensures bytes { TakesFront None None result into.new }
        ensures cause { HasCause OneFault self.old.faults self.new.faults result }
        ensures read { ReadConsumes
            (prepend_known self.old.ahead (R.remaining self.old.reader.stream))
            (prepend_known self.new.ahead (R.remaining self.new.reader.stream))
            result into.new }

        // What was read ahead is handed out without a call of the system.
        ensures ahead { 0 < length self.old.ahead → IsOk result × (self.new.reader ≡ self.old.reader) }
    {
        let Ok(()) = self.read_ahead() else {
            self.faults.rise();
            return Err(Failed);
        };
        Ok(self.ahead.hand_out(into))
    }
}
