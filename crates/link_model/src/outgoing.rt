//! Bytes that are gathered before a writer gets them.
ghost use Rattle.std.specs.Prelude.{◌≡◌, ◌≤◌, [], length, vec_len, vec_capacity, true, IfOk, OnOk};
ghost use Rattle.std.specs.Io.KnownBytes.{Keeps};
ghost use Rattle.link_model.specs.Attempts.{HasTried};
ghost use Rattle.link_model.specs.Gathered.{given, Gives};
ghost use Rattle.link_model.specs.declared.limits.TheConstants.{GATHERED_MAX};

use crate::attempts::Attempts;
use crate::failed::Failed;
use crate::limits::GATHERED_MAX;
use std::alloc::{AllocError, Global};
use std::io::Write;

/// A writer, and the bytes that are held back from it, after a front of them that was passed on.
#[derive(Drop)]
pub(crate) struct Outgoing<W> {
    writer: Attempts<W>,
    held: Vec<u8>,
    passed: usize,
    ghost few: { vec_len held ≤ GATHERED_MAX },
    ghost roomy: { GATHERED_MAX ≤ vec_capacity held },
    ghost within: { passed ≤ vec_len held },
}

/// Says that all was passed on that was held back. Nothing but `pass_on` makes one, so a reader
/// that wants one for each read never waits for input while a reply is held back.
#[derive(Drop)]
pub(crate) struct PassedOn(());

impl<W: Write + Drop> Outgoing<W> {
    pub(crate) fn new(alloc: Global, writer: W) -> Result<Outgoing<W>, AllocError>
        ensures { IfOk result (λ o. (o.writer.stream ≡ writer) × (o.held.items ≡ [])) }
    {
        let held = Vec::with_capacity(alloc, GATHERED_MAX)?;
        Ok(Outgoing {
            writer: Attempts::new(writer),
            held,
            passed: 0,
        })
    }

    /// Writes what is held back and flushes. If a write fails, what was not written stays held.
    pub(crate) fn pass_on(&mut self) -> Result<PassedOn, Failed>
        ensures bytes { Keeps
            (given (W.contents self.old.writer.stream) self.old.passed self.old.held.items)
            (given (W.contents self.new.writer.stream) self.new.passed self.new.held.items) }
        ensures emptied { OnOk result (self.new.held.items ≡ []) }
        ensures flushed { OnOk result (self.new.writer.is_flushed ≡ true) }
        ensures calls { HasTried self.old.writer.counts self.new.writer.counts result }
    {
        let (_, rest) = self.held.as_slice().split_at(self.passed);
        if let Err(count) = self.writer.write_front(rest) {
            self.passed += count;
            return Err(Failed);
        }
        self.held.clear();
        self.passed = 0;
        self.writer.flush_all()?;
        Ok(PassedOn(()))
    }

    /// Writes a piece to the end, and flushes. Nothing is held back.
    fn write_through(&mut self, piece: &[u8]) -> Result<(), Failed>
        requires { self.old.held.items ≡ [] }
        ensures bytes { Gives
            (given (W.contents self.old.writer.stream) self.old.passed self.old.held.items)
            (given (W.contents self.new.writer.stream) self.new.passed self.new.held.items)
            result piece.now }
        ensures held { self.new.held.items ≡ [] }
        ensures calls { HasTried self.old.writer.counts self.new.writer.counts result }
    {
        let Ok(()) = self.writer.write_front(piece) else {
            return Err(Failed);
        };
        self.writer.flush_all()
    }

    /// Holds the piece back. What was held back before is passed on first if the piece does not
    /// fit after it, or is empty; a piece that no buffer has room for is written through.
    pub(crate) fn put(&mut self, piece: &[u8]) -> Result<(), Failed>
        ensures bytes { Gives
            (given (W.contents self.old.writer.stream) self.old.passed self.old.held.items)
            (given (W.contents self.new.writer.stream) self.new.passed self.new.held.items)
            result piece.now }
        ensures emptied { OnOk result (length piece.now ≡ 0 → self.new.held.items ≡ []) }
        ensures flushed { OnOk result (length piece.now ≡ 0 → self.new.writer.is_flushed ≡ true) }
        ensures calls { HasTried self.old.writer.counts self.new.writer.counts result }
    {
        if piece.is_empty() || GATHERED_MAX - self.held.len() < piece.len() {
            self.pass_on()?;
            if piece.len() >= GATHERED_MAX {
                return self.write_through(piece);
            }
        }
        self.held.extend_from_slice(piece).unwrap();
        Ok(())
    }
}
