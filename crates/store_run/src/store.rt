ghost use Rattle.std.specs.Prelude.{◌≡◌, ◌<◌, ◌≤◌, ◌∷◌, length, vec_len, vec_capacity, IfOk, IfErr, IfSome};
ghost use Rattle.std.specs.List.{AllByRecursion};
ghost use Rattle.rdb_base.specs.Histories.{end};
ghost use Rattle.disk_model.specs.Facts.{AreDevices};
ghost use Rattle.disk_model.specs.Piles.{book_at};
ghost use Rattle.store_run.specs.Stores.{history_of};
ghost use Rattle.store_run.specs.Beside.{HasFirst, OthersStay};
ghost use Rattle.store_run.specs.Openings.{IsOpened, IsRefused};
ghost use Rattle.store_run.specs.Closing.{IsClosed};

use crate::closed::Closed;
use crate::closing::add_flush;
use crate::open_error::OpenError;
use crate::store_pass::StorePass;
use disk_model::{Devices, FaultPile, Shelf, Strip};
use std::alloc::Global;
use std::marker::Model;

/// A store of one caller, who has its pass. It keeps the devices beside the strip of the log, which the pass has.
#[derive(Drop)]
pub struct Store<S: Strip + Drop, H: Shelf + Drop> {
    /// The strip of device 0 is missing. There is room for it.
    devices: Devices<S, H>,
}

impl<S: Strip + Drop, H: Shelf + Drop> Model for Store<S, H> {
    ghost use Rattle.std.specs.Prelude.{◌<◌, vec_len, vec_capacity};
    ghost use Rattle.store_run.specs.Beside.{Beside};

    ghost Value = { Beside S H };

    ghost view = { λ s. record {
      strips = s.devices.log.items;
      manifest_a = s.devices.manifest_a;
      manifest_b = s.devices.manifest_b;
      shelf = s.devices.shelf;
    } };

    ghost invariant = { λ s. vec_len s.devices.log < vec_capacity s.devices.log };
}

/// Takes the first strip out. Its room is kept.
fn take_first<S>(strips: &mut Vec<S>) -> S
    requires some { 0 < length strips.old.items }
    requires room { vec_len strips.old ≤ vec_capacity strips.old }
    ensures items { strips.old.items ≡ result ∷ strips.new.items }
    ensures room { vec_len strips.new < vec_capacity strips.new }
{
    strips.remove(0)
}

/// Puts the first strip back.
fn put_first<S: Drop>(strips: &mut Vec<S>, strip: S)
    requires { vec_len strips.old < vec_capacity strips.old }
    ensures { strips.new.items ≡ strip ∷ strips.old.items }
{
    let Ok(()) = strips.insert(0, strip) else {
        unreachable!()
    };
}

impl<S: Strip + Drop, H: Shelf + Drop> Store<S, H> {
    /// Opens the devices as a store whose log begins in segment 0 on the first strip, with number 0. It reads that strip
    /// alone, and starts the segment where it has no header. Devices that are refused come back.
    pub fn open(
        alloc: Global,
        devices: Devices<S, H>,
    ) -> Result<(Store<S, H>, StorePass<S>), (Devices<S, H>, OpenError)>
        requires { AreDevices S.Strip H.Shelf devices }
        ensures opened { IfOk result (λ made.
            HasFirst devices made.0 (λ strip. IsOpened S.Strip strip made.1)) }
        ensures refused { IfErr result (λ refused.
            OthersStay devices refused.0 (IsRefused S.Strip refused.1)) }
    {
        let Devices {
            log,
            manifest_a,
            manifest_b,
            shelf,
        } = devices;
        let mut log = log;
        // Then there is room for the strip when it comes back.
        if log.reserve(0).is_err() {
            return Err((
                Devices {
                    log,
                    manifest_a,
                    manifest_b,
                    shelf,
                },
                OpenError::Memory,
            ));
        }
        let strip = take_first(&mut log);
        match StorePass::open(alloc, strip) {
            Ok(pass) => {
                let devices = Devices {
                    log,
                    manifest_a,
                    manifest_b,
                    shelf,
                };
                Ok((Store { devices }, pass))
            }
            Err((strip, error)) => {
                put_first(&mut log, strip);
                Err((
                    Devices {
                        log,
                        manifest_a,
                        manifest_b,
                        shelf,
                    },
                    error,
                ))
            }
        }
    }

    /// Flushes once, and gives all devices back, with the units that were handed in and the flush's.
    pub fn close(self, alloc: Global, pass: StorePass<S>, faults: FaultPile) -> Closed<S, H>
        requires { IfSome (book_at faults 0) (λ book. book ≡ S.book pass.log.journal.strip) }
        ensures front { result.front ≡ end (history_of pass) }
        // Each entry since the opening is this caller's.
        ensures own { AllByRecursion (λ entry. entry.caller ≡ 0) pass.made }
        ensures closed { HasFirst result.devices self
            (IsClosed S.Strip pass faults result.faults result.short) }
    {
        let (strip, front, flushed) = pass.close(alloc);
        let mut faults = faults;
        let short = add_flush(&mut faults, flushed);
        let Store { devices } = self;
        let mut devices = devices;
        put_first(&mut devices.log, strip);
        Closed {
            devices,
            faults,
            short,
            front,
        }
    }
}
