ghost use Rattle.std.specs.Prelude.{◌≡◌, ◌+◌, ◌^◌, ◌<◌, length, OnOk};
ghost use Rattle.disk_model.specs.SteadyState.{IsSteadyCall};

use crate::file_strip::FileStrip;
use disk_model::{DeviceError, SteadyStrip, Strip};
use std::alloc::Global;
use std::fs::File;
use std::marker::Model;
use std::rt::Files;

/// Where the bytes of a strip are.
#[derive(Drop)]
pub(crate) enum StripKind<'a, R> {
    File(FileStrip<'a, R>),
    Memory(SteadyStrip),
}

/// A strip of a process: a file of a folder, or memory that is gone when the process ends. Contracts see the book of its
/// failures, and none of its bytes.
#[derive(Drop)]
pub struct RealStrip<'a, R> {
    pub(crate) kind: StripKind<'a, R>,
}

impl<'a, R> Model for RealStrip<'a, R> {
    ghost use Rattle.disk_model.specs.Books.{BookState};
    ghost use Rattle.disk_real.specs.Real.{strip_book};

    ghost Value = { BookState };

    ghost view = { λ s. strip_book s.kind };
}

impl<'a, R: Files<File = File>> RealStrip<'a, R> {
    /// How many units were drawn from its book.
    pub fn faults(&self) -> u64
        ensures { result ≡ self.now.count }
    {
        match &self.kind {
            StripKind::File(strip) => strip.faults(),
            StripKind::Memory(_) => 0,
        }
    }
}

/// Writes to a strip in memory, which has no bytes between its end and a place after it.
fn write_in_memory(
    alloc: Global,
    strip: &mut SteadyStrip,
    at: u64,
    bytes: &[u8],
) -> Result<(), DeviceError>
    ensures short { OnOk result (at + length bytes.now < 2 ^ 63) }
    ensures call { IsSteadyCall strip.old strip.new result }
{
    if at > strip.len(alloc)? {
        return Err(DeviceError::Memory);
    }
    strip.write_at(alloc, at, bytes)
}

/// Cuts a strip in memory, likewise.
fn cut_in_memory(alloc: Global, strip: &mut SteadyStrip, at: u64) -> Result<(), DeviceError>
    ensures { IsSteadyCall strip.old strip.new result }
{
    if at > strip.len(alloc)? {
        return Err(DeviceError::Memory);
    }
    strip.cut(alloc, at)
}

impl<'a, R: Files<File = File>> Strip for RealStrip<'a, R> {
    ghost use Rattle.std.specs.Prelude.{true, false, []};

    ghost book = { λ s. s.name };

    ghost count = { λ s. s.count };

    ghost calls = { λ s. 0 };

    ghost tells = { λ s. false };

    ghost content = { λ s. [] };

    ghost tells_images = { λ s. false };

    ghost may_leave = { λ s c. ⊥ };

    ghost moment = { λ s. 0 };

    ghost left_since = { λ s t c. ⊥ };

    ghost own_image = { λ s told images. absurd Prim.cc };

    ghost counts_now = { λ s t c le none. none };

    ghost counts_earlier = { λ s t u c le none. none };

    ghost only_now = { λ s c none. none };

    fn len(&mut self, alloc: Global) -> Result<u64, DeviceError> {
        match &mut self.kind {
            StripKind::File(strip) => strip.len(alloc),
            StripKind::Memory(strip) => strip.len(alloc),
        }
    }

    fn read(&mut self, alloc: Global, at: u64, into: &mut [u8]) -> Result<usize, DeviceError> {
        match &mut self.kind {
            StripKind::File(strip) => strip.read(alloc, at, into),
            StripKind::Memory(strip) => strip.read(alloc, at, into),
        }
    }

    fn write_at(&mut self, alloc: Global, at: u64, bytes: &[u8]) -> Result<(), DeviceError> {
        match &mut self.kind {
            StripKind::File(strip) => strip.write_at(alloc, at, bytes),
            StripKind::Memory(strip) => write_in_memory(alloc, strip, at, bytes),
        }
    }

    fn cut(&mut self, alloc: Global, at: u64) -> Result<(), DeviceError> {
        match &mut self.kind {
            StripKind::File(strip) => strip.cut(alloc, at),
            StripKind::Memory(strip) => cut_in_memory(alloc, strip, at),
        }
    }

    fn sync(&mut self, alloc: Global) -> Result<(), DeviceError> {
        match &mut self.kind {
            StripKind::File(strip) => strip.sync(alloc),
            StripKind::Memory(strip) => strip.sync(alloc),
        }
    }
}
