ghost use Rattle.std.specs.Prelude.{◌≡◌, ◌≤◌, IfOk};
ghost use Rattle.disk_model.specs.Facts.{AreDevices};
ghost use Rattle.disk_model.specs.declared.limits.TheConstants.{SHELF, STRIP_MAX};
ghost use Rattle.disk_real.specs.Real.{HaveNotFailed};

use crate::file_shelf::FileShelf;
use crate::file_strip::FileStrip;
use crate::holding::Holding;
use crate::names::{MANIFEST_NAMES, log_name};
use crate::real_shelf::{RealShelf, ShelfKind};
use crate::real_strip::{RealStrip, StripKind};
use disk_model::{
    Devices, LOG_STRIPS, MANIFEST_A, MANIFEST_B, Shelf, SteadyShelf, SteadyStrip, Strip,
};
use std::alloc::{AllocError, Global};
use std::fs::File;
use std::rt::Files;

/// A strip that is this file of the folder, or one in memory if there is no folder.
fn strip_of<'a, R: Files<File = File>>(
    alloc: Global,
    rt: &'a R,
    folder: Option<&str>,
    name: &str,
    device: u8,
    holding: Holding,
) -> Result<RealStrip<'a, R>, AllocError>
    requires { device ≤ STRIP_MAX }
    ensures device { IfOk result (λ strip. strip.name.device ≡ device) }
    ensures fresh { IfOk result (λ strip. strip.count ≡ 0) }
{
    let kind = match folder {
        Some(folder) => {
            StripKind::File(FileStrip::new(alloc, rt, folder, name, device, holding)?)
        }
        None => StripKind::Memory(SteadyStrip::new(alloc, device)),
    };
    Ok(RealStrip { kind })
}

/// A strip of the log. The first is held alone, so a folder has one writer.
fn log_strip<'a, R: Files<File = File>>(
    alloc: Global,
    rt: &'a R,
    folder: Option<&str>,
    device: u8,
) -> Result<RealStrip<'a, R>, AllocError>
    requires { device ≤ STRIP_MAX }
    ensures device { IfOk result (λ strip. strip.name.device ≡ device) }
    ensures fresh { IfOk result (λ strip. strip.count ≡ 0) }
{
    let name = log_name(alloc, device)?;
    let holding = if device == 0 {
        Holding::Alone
    } else {
        Holding::Shared
    };
    strip_of(alloc, rt, folder, name.as_str(), device, holding)
}

fn shelf_of<'a, R: Files<File = File> + AllocGlobal + Clone + Drop>(
    alloc: Global,
    rt: &'a R,
    folder: Option<&str>,
) -> Result<RealShelf<'a, R>, AllocError>
    ensures device { IfOk result (λ shelf. shelf.name.device ≡ SHELF) }
    ensures fresh { IfOk result (λ shelf. shelf.count ≡ 0) }
{
    let kind = match folder {
        Some(folder) => ShelfKind::Files(FileShelf::new(alloc, rt, folder)?),
        None => ShelfKind::Memory(SteadyShelf::new(alloc)),
    };
    Ok(RealShelf { kind })
}

/// The devices of a folder, or devices in memory if there is no folder. No call of the system is made before one needs
/// a file.
pub fn real_devices<'a, R: Files<File = File> + AllocGlobal + Clone + Drop>(
    alloc: Global,
    rt: &'a R,
    folder: Option<&str>,
) -> Result<Devices<RealStrip<'a, R>, RealShelf<'a, R>>, AllocError>
    ensures all { IfOk result (AreDevices ⟦<RealStrip<'a, R> as Strip>⟧ ⟦<RealShelf<'a, R> as Shelf>⟧) }
    ensures fresh { IfOk result HaveNotFailed }
{
    let [first, second] = MANIFEST_NAMES;
    let mut log = Vec::new(alloc);
    'strips: for device in 0..LOG_STRIPS as u8 {
        log.push(log_strip(alloc, rt, folder, device)?)?;
    }
    Ok(Devices {
        log,
        manifest_a: strip_of(alloc, rt, folder, first, MANIFEST_A, Holding::Shared)?,
        manifest_b: strip_of(alloc, rt, folder, second, MANIFEST_B, Holding::Shared)?,
        shelf: shelf_of(alloc, rt, folder)?,
    })
}
