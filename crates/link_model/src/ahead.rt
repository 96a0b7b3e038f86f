//! Bytes that were read before they were asked for.
ghost use Rattle.std.specs.Prelude.{◌≡◌, ◌==◌, [], min, take, drop, length, Ok, OnOk, OnErr, IfOk};
ghost use Rattle.std.specs.Io.KnownBytes.{Consumes, IsAtEnd, Keeps};
ghost use Rattle.link_model.specs.Attempts.{HasTried};

use crate::attempts::Attempts;
use crate::failed::Failed;
use crate::filling::copy_front;
use crate::limits::READ_AHEAD_MAX;
use crate::outgoing::PassedOn;
use std::alloc::{AllocError, Global};
use std::io::Read;
use std::marker::Model;

/// Bytes that were read and not yet handed out: those of the buffer from `at` to `end`.
#[derive(Drop)]
pub(crate) struct Ahead {
    buffer: Vec<u8>,
    at: usize,
    end: usize,
}

impl Model for Ahead {
    ghost use Rattle.std.specs.Prelude.{◌≡◌, ℕ, ◌-◌, ◌≤◌, List, take, drop, vec_len};
    ghost use Rattle.link_model.specs.declared.limits.TheConstants.{READ_AHEAD_MAX};

    ghost Value = { List ℕ };

    ghost view = { λ a. take (a.end - a.at) (drop a.at a.buffer.items) };

    ghost invariant = { λ a. (a.at ≤ a.end) × (a.end ≤ vec_len a.buffer) × (vec_len a.buffer ≡ READ_AHEAD_MAX) };
}

impl Ahead {
    pub(crate) fn new(alloc: Global) -> Result<Ahead, AllocError>
        ensures { IfOk result (λ a. a ≡ []) }
    {
        let buffer = Vec::from_elem(alloc, 0, READ_AHEAD_MAX)?;
        Ok(Ahead {
            buffer,
            at: 0,
            end: 0,
        })
    }

    pub(crate) fn is_empty(&self) -> bool
        ensures { result ≡ (length self.now == 0) }
    {
        self.at == self.end
    }

    /// Reads once, when nothing is left of what was read before. Only a caller that has just passed
    /// on the replies has what it takes. Nothing comes at the end alone.
    pub(crate) fn fill<R: Read>(
        &mut self,
        reader: &mut Attempts<R>,
        _passed: PassedOn,
    ) -> Result<(), Failed>
        requires { self.old ≡ [] }
        ensures read { OnOk result (Consumes (R.remaining reader.old.stream) (R.remaining reader.new.stream) self.new) }
        ensures end { OnOk result (self.new ≡ [] → IsAtEnd (R.remaining reader.new.stream)) }
        ensures kept { OnErr result (Keeps (R.remaining reader.old.stream) (R.remaining reader.new.stream)) }
        ensures empty { OnErr result (self.new ≡ []) }
        ensures calls { HasTried reader.old.counts reader.new.counts result }
    {
        let count = reader.read_some(&mut self.buffer)?;
        self.at = 0;
        self.end = count;
        Ok(())
    }

    /// Hands out as many bytes from the front as there are and as there is room for.
    pub(crate) fn hand_out(&mut self, into: &mut [u8]) -> usize
        ensures count { result ≡ min (length into.old) (length self.old) }
        ensures front { take result into.new ≡ take result self.old }
        ensures rest { self.new ≡ drop result self.old }
    {
        let (read, _) = self.buffer.as_slice().split_at(self.end);
        let (_, left) = read.split_at(self.at);
        let count = copy_front(left, into);
        self.at += count;
        count
    }
}
