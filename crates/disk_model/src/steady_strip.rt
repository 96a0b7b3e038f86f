ghost use Rattle.std.specs.Prelude.{◌≡◌};

use crate::bytes::{read_from, write_over};
use crate::{DeviceError, Strip};
use std::alloc::Global;
use std::marker::Model;

/// A strip in memory that never fails, and keeps nothing of its past. Contracts see its device and its bytes, and no
/// crash images. No unit is ever drawn from its book.
#[derive(Drop)]
pub struct SteadyStrip {
    device: u8,
    bytes: Vec<u8>,
}

impl Model for SteadyStrip {
    ghost use Rattle.disk_model.specs.SteadyState.{SteadyState};

    ghost Value = { SteadyState };

    ghost view = { λ s. record { book = record { device = s.device }; bytes = s.bytes.items } };
}

impl SteadyStrip {
    ghost use Rattle.std.specs.Prelude.{[]};

    /// An empty strip.
    pub fn new(alloc: Global, device: u8) -> SteadyStrip
        ensures device { result.book.device ≡ device }
        ensures empty { result.bytes ≡ [] }
    {
        SteadyStrip {
            device,
            bytes: Vec::new(alloc),
        }
    }
}

impl Strip for SteadyStrip {
    ghost use Rattle.std.specs.Prelude.{true, false, ◌+◌, ◌^◌, ◌<◌, ◌≤◌, length, take, IsOk, IfOk, IfErr, OnOk, OnErr};
    ghost use Rattle.disk_model.specs.Strips.{Holds, Fills};
    ghost use Rattle.disk_model.specs.SteadyState.{IsSteadyCall};
    ghost use Rattle.disk_model.specs.declared.device_error.DeviceError.TheVariants.{Memory};

    ghost book = { λ s. s.book };

    ghost count = { λ s. 0 };

    ghost calls = { λ s. 0 };

    ghost tells = { λ s. true };

    ghost content = { λ s. s.bytes };

    ghost tells_images = { λ s. false };

    ghost may_leave = { λ s c. ⊥ };

    ghost moment = { λ s. 0 };

    ghost left_since = { λ s t c. ⊥ };

    ghost own_image = { λ s told images. Prim.cc };

    ghost counts_now = { λ s t c le none. none };

    ghost counts_earlier = { λ s t u c le none. none };

    ghost only_now = { λ s c none. none };

    fn len(&mut self, _alloc: Global) -> Result<u64, DeviceError>
        ensures ok { IsOk result }
        ensures length { IfOk result (λ len. len ≡ length self.old.bytes) }
        ensures short { IfOk result (λ len. len < 2 ^ 63) }
        ensures content { self.new.bytes ≡ self.old.bytes }
        ensures call { IsSteadyCall self.old self.new result }
    {
        Ok(self.bytes.len() as u64)
    }

    fn read(&mut self, _alloc: Global, at: u64, into: &mut [u8]) -> Result<usize, DeviceError>
        ensures ok { IsOk result }
        ensures filled { IfOk result (λ count. Fills self.old.bytes at count into.old into.new) }
        ensures fits { IfOk result (λ count. count ≤ length into.old) }
        ensures content { self.new.bytes ≡ self.old.bytes }
        ensures call { IsSteadyCall self.old self.new result }
    {
        Ok(read_from(&self.bytes, at, into))
    }

    fn write_at(&mut self, _alloc: Global, at: u64, bytes: &[u8]) -> Result<(), DeviceError>
        requires { at ≤ length self.old.bytes }
        ensures written { OnOk result (Holds self.old.bytes at bytes.now self.new.bytes) }
        ensures refused { OnErr result (self.new.bytes ≡ self.old.bytes) }
        ensures memory { IfErr result (λ e. e ≡ Memory) }
        ensures over { at + length bytes.now ≤ length self.old.bytes → IsOk result }
        ensures short { OnOk result (at + length bytes.now < 2 ^ 63) }
        ensures call { IsSteadyCall self.old self.new result }
    {
        Ok(write_over(&mut self.bytes, at as usize, bytes)?)
    }

    fn cut(&mut self, _alloc: Global, at: u64) -> Result<(), DeviceError>
        requires { at ≤ length self.old.bytes }
        ensures ok { IsOk result }
        ensures cut { OnOk result (self.new.bytes ≡ take at self.old.bytes) }
        ensures call { IsSteadyCall self.old self.new result }
    {
        self.bytes.truncate(at as usize);
        Ok(())
    }

    fn sync(&mut self, _alloc: Global) -> Result<(), DeviceError>
        ensures ok { IsOk result }
        ensures content { self.new.bytes ≡ self.old.bytes }
        ensures call { IsSteadyCall self.old self.new result }
    {
        Ok(())
    }
}
