//! How a segment gets its header.
ghost use Rattle.std.specs.Prelude.{◌≡◌, ◌+◌, ◌≤◌, true, false, Ok, OnOk, OnErr};
ghost use Rattle.frame_journal.specs.Devices.{CauseIn, OfBytes, OfImages};
ghost use Rattle.frame_journal.specs.JournalState.{is_ready, has_staged};
ghost use Rattle.wal_log.specs.Logs.{HasHeader};
ghost use Rattle.wal_log.specs.Calls.{SameEntries, KeepsLists, StripCalls};

use crate::Segment;
use disk_model::{DeviceError, Strip};
use entry_code::encode_header;
use rdb_base::NoMemory;
use std::alloc::{AllocError, Global};

impl<S: Strip> Segment<S> {
    /// Makes the header stand, where it does not. After a refusal the next start goes on from what was refused.
    pub fn start(&mut self, alloc: Global) -> Result<(), DeviceError>
        ensures headed { OnOk result (self.new.headed ≡ true) }
        // The header stands, as a read gives it and in each crash image.
        ensures header { OnOk result (OfBytes S.Strip self.new.journal.strip HasHeader
            × OfImages S.Strip self.new.journal.strip HasHeader) }
        ensures nothing { self.old.headed ≡ true → (result ≡ Ok tt) × (self.new ≡ self.old) }
        ensures same { SameEntries self.old self.new }
        ensures batch { self.new.batch ≡ self.old.batch }
        ensures calls { StripCalls S.Strip 8 self.old self.new }
        ensures second { is_ready self.old.journal ≡ true →
            S.calls self.new.journal.strip ≤ S.calls self.old.journal.strip + 4 }
        ensures doubt { OnErr result (has_staged self.old.journal ≡ true → has_staged self.new.journal ≡ true) }
        ensures cause { CauseIn S.Strip self.old.journal.strip self.new.journal.strip result }
    {
        self.tell_images();
        if self.headed {
            return Ok(());
        }
        self.prepare(alloc)?;
        self.settle_staged(alloc)?;
        self.tell_images();
        Ok(())
    }

    /// Clears the strip and stages the header, as far as that was not done.
    fn prepare(&mut self, alloc: Global) -> Result<(), DeviceError>
        requires bare { self.old.headed ≡ false }
        ensures staged { OnOk result (has_staged self.new.journal ≡ true) }
        ensures second { is_ready self.old.journal ≡ true → self.new.journal.strip ≡ self.old.journal.strip }
        ensures doubt { has_staged self.old.journal ≡ true → (result ≡ Ok tt) × (self.new ≡ self.old) }
        ensures lists { KeepsLists self.old self.new }
        ensures headed { self.new.headed ≡ false }
        ensures calls { StripCalls S.Strip 4 self.old self.new }
        ensures cause { CauseIn S.Strip self.old.journal.strip self.new.journal.strip result }
    {
        self.tell_images();
        if self.journal.has_staged() {
            return Ok(());
        }
        self.make_ready(alloc)?;
        self.stage_header(alloc)?;
        Ok(())
    }

    /// Clears the strip, where no clear has succeeded.
    fn make_ready(&mut self, alloc: Global) -> Result<(), DeviceError>
        requires bare { self.old.headed ≡ false }
        requires idle { has_staged self.old.journal ≡ false }
        ensures ready { OnOk result (is_ready self.new.journal ≡ true) }
        ensures nothing { is_ready self.old.journal ≡ true → (result ≡ Ok tt) × (self.new ≡ self.old) }
        ensures idle { has_staged self.new.journal ≡ false }
        ensures lists { KeepsLists self.old self.new }
        ensures headed { self.new.headed ≡ false }
        ensures calls { StripCalls S.Strip 4 self.old self.new }
        ensures cause { CauseIn S.Strip self.old.journal.strip self.new.journal.strip result }
    {
        self.tell_images();
        if self.journal.ready() {
            return Ok(());
        }
        self.journal.clear(alloc)?;
        Ok(())
    }

    /// Stages the header.
    fn stage_header(&mut self, alloc: Global) -> Result<(), NoMemory>
        requires bare { self.old.headed ≡ false }
        requires ready { is_ready self.old.journal ≡ true }
        requires idle { has_staged self.old.journal ≡ false }
        ensures staged { OnOk result (has_staged self.new.journal ≡ true) }
        ensures lists { KeepsLists self.old self.new }
        ensures headed { self.new.headed ≡ false }
        ensures strip { self.new.journal.strip ≡ self.old.journal.strip }
    {
        let payload = encode_header(alloc, self.number, self.first)?;
        let Ok(()) = self.journal.stage(alloc, payload) else {
            return Err(AllocError);
        };
        Ok(())
    }
}
