//! How a store's pass is closed: by one flush.
ghost use Rattle.std.specs.Prelude.{◌≡◌, IfErr, OnOk};
ghost use Rattle.std.specs.List.{AllByRecursion};
ghost use Rattle.rdb_base.specs.Histories.{end};
ghost use Rattle.frame_journal.specs.Devices.{CauseIn};
ghost use Rattle.store_run.specs.Stores.{history_of};
ghost use Rattle.store_run.specs.Closing.{ClosingCalls, HasWhole, IsUnitFor, FlushEnds};

use crate::store_pass::StorePass;
use disk_model::{DeviceError, FaultPile, Strip};
use std::alloc::Global;

impl<S: Strip> StorePass<S> {
    /// Flushes once, and gives the strip back.
    pub(crate) fn close(self, alloc: Global) -> (S, u64, Result<u64, DeviceError>)
        ensures calls { ClosingCalls S.Strip self result.0 }
        ensures front { result.1 ≡ end (history_of self) }
        ensures whole { OnOk result.2 (HasWhole S.Strip self result.0) }
        ensures own { AllByRecursion (λ entry. entry.caller ≡ 0) self.made }
        ensures cause { CauseIn S.Strip self.log.journal.strip result.0 result.2 }
        ensures device { (S.book self.log.journal.strip).device ≡ 0 }
    {
        let mut pass = self;
        pass.tell_synced();
        let front = pass.log.end();
        let flushed = pass.log.flush(alloc);
        pass.tell_synced();
        let StorePass { log, .. } = pass;
        (log.into_strip(), front, flushed)
    }
}

/// Adds the closing flush's unit to those that were handed in, if it failed. True if memory ran out.
pub(crate) fn add_flush(faults: &mut FaultPile, flushed: Result<u64, DeviceError>) -> bool
    requires { IfErr flushed (λ error. IsUnitFor error faults.old) }
    ensures { FlushEnds flushed faults.old faults.new result }
{
    match flushed {
        Ok(_) => false,
        Err(DeviceError::Fault(unit)) => {
            faults.add(unit);
            false
        }
        Err(DeviceError::Memory) => true,
    }
}
