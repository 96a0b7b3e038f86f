ghost use Rattle.std.specs.Prelude.{◌≡◌, ◌≤◌, IfOk, slice_get, Some};
ghost use Rattle.disk_model.specs.Facts.{AreDevices};
ghost use Rattle.disk_model.specs.declared.limits.TheConstants.{STRIP_MAX};

use disk_model::{
    Devices, LOG_STRIPS, MANIFEST_A, MANIFEST_B, MemoryShelf, MemoryStrip, Shelf, Strip,
};
use std::alloc::{AllocError, Global};

/// An empty strip in memory.
fn empty_strip(alloc: Global, device: u8) -> Result<MemoryStrip, AllocError>
    requires { device ≤ STRIP_MAX }
    ensures { IfOk result (λ strip. strip.tally.book.name.device ≡ device) }
{
    MemoryStrip::new(alloc, device, Vec::new(alloc), Vec::new(alloc))
}

/// Devices in memory: this first log strip, and all others empty.
pub fn memory_devices(
    alloc: Global,
    first: MemoryStrip,
) -> Result<Devices<MemoryStrip, MemoryShelf>, AllocError>
    requires { first.tally.book.name.device ≡ 0 }
    ensures all { IfOk result (AreDevices ⟦<MemoryStrip as Strip>⟧ ⟦<MemoryShelf as Shelf>⟧) }
    ensures first { IfOk result (λ devices. slice_get devices.log.items 0 ≡ Some first) }
{
    let mut log = Vec::new(alloc);
    log.push(first)?;
    'strips: for device in 1..LOG_STRIPS as u8 {
        log.push(empty_strip(alloc, device)?)?;
    }
    Ok(Devices {
        log,
        manifest_a: empty_strip(alloc, MANIFEST_A)?,
        manifest_b: empty_strip(alloc, MANIFEST_B)?,
        shelf: MemoryShelf::new(alloc, Vec::new(alloc), Vec::new(alloc))?,
    })
}
