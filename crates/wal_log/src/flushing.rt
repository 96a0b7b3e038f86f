//! How pending entries get to the strip: as one frame that is staged and then settled.
ghost use Rattle.std.specs.Prelude.{IsOk, ◌≡◌, ◌+◌, ◌≤◌, [], true, false, length, OnOk, OnErr, IfOk};
ghost use Rattle.frame_journal.specs.Devices.{CauseIn, OfBytes, OfImages};
ghost use Rattle.frame_journal.specs.JournalState.{has_staged};
ghost use Rattle.wal_log.specs.Logs.{HasHeader};
ghost use Rattle.wal_log.specs.Calls.{SameEntries, HasFront, HasAll, StripCalls};

use crate::Segment;
use crate::told::take_staged;
use disk_model::{DeviceError, Strip};
use rdb_base::NoMemory;
use std::alloc::Global;
use std::snapshot::Snapshot;

impl<S: Strip> Segment<S> {
    /// Settles a frame in doubt, then all pending entries as one frame, and answers with the number after the last
    /// entry. After a refusal each entry is kept. With nothing in doubt and nothing pending it makes no call.
    pub fn flush(&mut self, alloc: Global) -> Result<u64, DeviceError>
        requires { self.old.headed ≡ true }
        ensures number { IfOk result (λ n. n ≡ self.old.first + length self.old.entries) }
        ensures all { OnOk result (self.new.synced ≡ self.new.entries) }
        ensures pending { OnOk result (self.new.batch.entries ≡ []) }
        ensures idle { OnOk result (has_staged self.new.journal ≡ false) }
        ensures one_frame { has_staged self.old.journal ≡ false →
            S.calls self.new.journal.strip ≤ S.calls self.old.journal.strip + 4 }
        ensures doubt_only { self.old.batch.entries ≡ [] →
            S.calls self.new.journal.strip ≤ S.calls self.old.journal.strip + 4 }
        ensures same { SameEntries self.old self.new }
        ensures headed { self.new.headed ≡ true }
        ensures nothing { has_staged self.old.journal ≡ false → self.old.batch.entries ≡ [] →
            IsOk result × (self.new ≡ self.old) }

        // If it succeeds, each crash image has all entries; whatever it answers, each has those that are synced.
        ensures whole { OnOk result (OfImages S.Strip self.new.journal.strip (HasAll self.new)) }
        ensures left { OfImages S.Strip self.new.journal.strip (HasFront self.new) }
        ensures content { OfBytes S.Strip self.new.journal.strip (HasFront self.new) }
        ensures calls { StripCalls S.Strip 8 self.old self.new }
        ensures cause { CauseIn S.Strip self.old.journal.strip self.new.journal.strip result }
    {
        let settled = self.settle_doubt(alloc);
        if let Err(error) = settled {
            self.tell_images();
            return Err(error);
        }
        let flushed = self.flush_batch(alloc);
        self.tell_images();
        flushed?;
        Ok(self.batch.end())
    }

    /// Settles a frame in doubt, if there is one.
    fn settle_doubt(&mut self, alloc: Global) -> Result<(), DeviceError>
        requires { self.old.headed ≡ true }
        ensures idle { OnOk result (has_staged self.new.journal ≡ false) }
        ensures same { SameEntries self.old self.new }
        ensures batch { self.new.batch ≡ self.old.batch }
        ensures headed { self.new.headed ≡ true }
        ensures calls { StripCalls S.Strip 4 self.old self.new }
        ensures cause { CauseIn S.Strip self.old.journal.strip self.new.journal.strip result }
        ensures nothing { has_staged self.old.journal ≡ false → IsOk result × (self.new ≡ self.old) }
    {
        self.tell_images();
        if !self.journal.has_staged() {
            return Ok(());
        }
        self.settle_staged(alloc)
    }

    /// Stages and settles the pending entries, if there are any.
    fn flush_batch(&mut self, alloc: Global) -> Result<(), DeviceError>
        requires headed { self.old.headed ≡ true }
        requires idle { has_staged self.old.journal ≡ false }
        ensures all { OnOk result (self.new.synced ≡ self.old.entries) }
        ensures idle { OnOk result (has_staged self.new.journal ≡ false) }
        ensures none { OnOk result (self.new.batch.entries ≡ []) }
        ensures same { SameEntries self.old self.new }
        ensures headed { self.new.headed ≡ true }
        ensures calls { StripCalls S.Strip 4 self.old self.new }
        ensures cause { CauseIn S.Strip self.old.journal.strip self.new.journal.strip result }
        ensures nothing { self.old.batch.entries ≡ [] → IsOk result × (self.new ≡ self.old) }
    {
        self.tell_images();
        if self.batch.is_empty() {
            self.tell_all();
            return Ok(());
        }
        self.stage_batch(alloc)?;
        self.settle_staged(alloc)
    }

    /// Stages the pending entries as one frame.
    fn stage_batch(&mut self, alloc: Global) -> Result<(), NoMemory>
        requires headed { self.old.headed ≡ true }
        requires idle { has_staged self.old.journal ≡ false }
        requires some { 1 ≤ length self.old.batch.entries }
        ensures staged { OnOk result (has_staged self.new.journal ≡ true) }
        ensures written { OnOk result (self.new.written ≡ self.old.entries) }
        ensures none { OnOk result (self.new.batch.entries ≡ []) }
        ensures entries { self.new.entries ≡ self.old.entries }
        ensures synced { self.new.synced ≡ self.old.synced }
        ensures number { (self.new.number ≡ self.old.number) × (self.new.first ≡ self.old.first) }
        ensures headed { self.new.headed ≡ true }
        ensures strip { self.new.journal.strip ≡ self.old.journal.strip }
    {
        let room = self.journal.take_room(alloc);
        self.batch.tell_readable();
        let payload = self.batch.lend(room);
        match self.journal.stage(alloc, payload) {
            Ok(()) => {
                self.batch.begin_again();
                self.staged = Some(Snapshot::of(&self.all));
                Ok(())
            }
            Err((payload, error)) => {
                self.batch.put_back(payload);
                Err(error)
            }
        }
    }

    /// Settles the frame that is staged or in doubt.
    pub(crate) fn settle_staged(&mut self, alloc: Global) -> Result<(), DeviceError>
        requires { has_staged self.old.journal ≡ true }
        ensures idle { OnOk result (has_staged self.new.journal ≡ false) }
        ensures entries { self.new.entries ≡ self.old.entries }
        ensures written { self.new.written ≡ self.old.written }
        ensures synced { OnOk result (self.new.synced ≡ self.old.written) }
        ensures kept { OnErr result (self.new.synced ≡ self.old.synced) }
        ensures doubt { OnErr result (has_staged self.new.journal ≡ true) }
        ensures batch { self.new.batch ≡ self.old.batch }
        ensures number { (self.new.number ≡ self.old.number) × (self.new.first ≡ self.old.first) }
        ensures headed { OnOk result (self.new.headed ≡ true) }
        ensures before { OnErr result (self.new.headed ≡ self.old.headed) }
        ensures calls { StripCalls S.Strip 4 self.old self.new }
        ensures cause { CauseIn S.Strip self.old.journal.strip self.new.journal.strip result }
    {
        self.journal.settle(alloc)?;
        self.headed = true;
        take_staged(&mut self.synced, &mut self.staged);
        Ok(())
    }

    /// With nothing staged and nothing pending all entries are synced. It does nothing.
    fn tell_all(&self)
        requires idle { has_staged self.now.journal ≡ false }
        requires none { self.now.batch.entries ≡ [] }
        ensures { self.now.synced ≡ self.now.entries }
    {
        let _first = self.first;
    }

    /// Each crash image has the first so many entries, no fewer than are synced, and the header of a segment that was
    /// started. It does nothing.
    pub fn tell_images(&self)
        ensures content { OfBytes S.Strip self.now.journal.strip (HasFront self.now) }
        ensures images { OfImages S.Strip self.now.journal.strip (HasFront self.now) }
        ensures numbered { self.now.batch.first + length self.now.batch.entries
            ≡ self.now.first + length self.now.entries }
        ensures least { length self.now.synced ≤ length self.now.written }
        ensures all { self.now.synced ≡ self.now.entries →
            OfBytes S.Strip self.now.journal.strip (HasAll self.now)
            × OfImages S.Strip self.now.journal.strip (HasAll self.now) }
        // Where the segment was started, they have its header.
        ensures header { self.now.headed ≡ true →
            OfBytes S.Strip self.now.journal.strip HasHeader
            × OfImages S.Strip self.now.journal.strip HasHeader }
    {
        self.journal.leaves();
    }
}
