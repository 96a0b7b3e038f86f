//! A wire: what its far end sends comes to a reader, and what is written to it is kept.
ghost use Rattle.std.specs.Prelude.{◌≤◌, length};

use crate::filling::copy_front;
use std::alloc::Global;
use std::cell::RefCell;
use std::io;
use std::io::{ErrorKind, Read, Write};
use std::rc::Rc;
use std::test::Fail;

/// What the two ends of a wire have seen.
#[derive(Drop)]
pub struct Wire {
    /// What the far end sends, in two pieces.
    first: Vec<u8>,
    second: Vec<u8>,
    /// How many reads came.
    reads: u32,
    /// Each call that was not interrupted: `r` for a read, `w` for a write, `f` for a flush.
    calls: Vec<u8>,
    written: Vec<u8>,
    /// How many bytes one write takes at most.
    write_max: usize,
    /// How many calls are interrupted before one is not.
    interrupts: u32,
    interrupted: u32,
    is_broken: bool,
}

/// A wire, shared by its two ends.
#[derive(Drop)]
pub struct End {
    wire: Rc<RefCell<Wire>>,
}

impl Wire {
    fn new(alloc: Global, pieces: (&[u8], &[u8]), interrupts: u32) -> Result<Wire, Fail> {
        let (first, second) = pieces;
        let first = Vec::from_slice(alloc, first)?;
        let second = Vec::from_slice(alloc, second)?;
        Ok(Wire {
            first,
            second,
            reads: 0,
            calls: Vec::new(alloc),
            written: Vec::new(alloc),
            write_max: 4_096,
            interrupts,
            interrupted: 0,
            is_broken: false,
        })
    }

    /// Gives the next piece.
    fn give(&mut self, into: &mut [u8]) -> usize
        ensures { result ≤ length into.new }
    {
        self.reads = self.reads.saturating_add(1);
        match self.reads {
            1 => copy_front(&self.first, into),
            2 => copy_front(&self.second, into),
            _ => 0,
        }
    }

    /// Notes a call, unless it is interrupted or the wire is broken.
    fn call(&mut self, name: u8) -> io::Result<()> {
        if self.interrupted < self.interrupts {
            self.interrupted += 1;
            return Err(io::Error::from(ErrorKind::Interrupted));
        }
        self.interrupted = 0;
        self.calls.push(name)?;
        if self.is_broken && name != b'r' {
            return Err(io::Error::from(ErrorKind::BrokenPipe));
        }
        Ok(())
    }
}

impl Read for End {
    fn read(&mut self, into: &mut [u8]) -> io::Result<usize> {
        let Ok(mut wire) = self.wire.try_borrow_mut() else {
            return Err(io::Error::from(ErrorKind::Other));
        };
        wire.call(b'r')?;
        Ok(wire.give(into))
    }
}

impl Write for End {
    fn write(&mut self, bytes: &[u8]) -> io::Result<usize> {
        let Ok(mut wire) = self.wire.try_borrow_mut() else {
            return Err(io::Error::from(ErrorKind::Other));
        };
        wire.call(b'w')?;
        let count = bytes.len().min(wire.write_max);
        let (front, _) = bytes.split_at(count);
        wire.written.extend_from_slice(front)?;
        Ok(count)
    }

    fn flush(&mut self) -> io::Result<()> {
        match self.wire.try_borrow_mut() {
            Ok(mut wire) => wire.call(b'f'),
            Err(_) => Err(io::Error::from(ErrorKind::Other)),
        }
    }
}

impl End {
    /// A wire whose far end sends these two pieces, and whose calls are each interrupted so often first.
    pub fn new(alloc: Global, pieces: (&[u8], &[u8]), interrupts: u32) -> Result<End, Fail> {
        let wire = Wire::new(alloc, pieces, interrupts)?;
        Ok(End {
            wire: Rc::new(alloc, RefCell::new(wire))?,
        })
    }

    /// Another end of the same wire.
    pub fn other(&self) -> Result<End, Fail> {
        Ok(End {
            wire: self.wire.clone()?,
        })
    }

    /// Breaks the wire for what is written, or mends it.
    pub fn set_broken(&self, is_broken: bool) {
        if let Ok(mut wire) = self.wire.try_borrow_mut() {
            wire.is_broken = is_broken;
        }
    }

    /// Lets no call be interrupted any more.
    pub fn end_interrupts(&self) {
        if let Ok(mut wire) = self.wire.try_borrow_mut() {
            wire.interrupts = 0;
        }
    }

    /// Whether the wire has noted these calls and no others, and these bytes are all that was written.
    pub fn has_seen(&self, calls: &[u8], written: &[u8]) -> bool {
        match self.wire.try_borrow() {
            Ok(wire) => wire.calls.as_slice() == calls && wire.written.as_slice() == written,
            Err(_) => false,
        }
    }
}
