ghost use Rattle.std.specs.Prelude.{◌≡◌, ◌+◌, ◌≤◌, false, [], OnOk};
ghost use Rattle.std.specs.List.{AllByRecursion};
ghost use Rattle.rdb_base.specs.Histories.{end};
ghost use Rattle.rdb_base.specs.declared.limits.TheConstants.{NUMBER_MAX};
ghost use Rattle.frame_journal.specs.Devices.{OfBytes, OfImages};
ghost use Rattle.frame_journal.specs.JournalState.{has_staged};
ghost use Rattle.session_core.specs.StoreCalls.{GetMoves, SyncMoves, HasSyncUnit};
ghost use Rattle.store_run.specs.Stores.{pass_of, history_of, ReopensSynced, ReopensWhole, CallsOf, Stays};

use crate::rows::copy_at;
use disk_model::Strip;
use memory_rows::MemoryRows;
use rdb_base::{Key, NoMemory, ToldEntries};
use session_core::{Found, SyncError};
use std::alloc::Global;
use std::marker::Model;
use std::snapshot::Snapshot;
use wal_log::Segment;

/// What the one caller of a store keeps of it: the log on its strip, and the map after all its entries.
///
/// The entries that the opening found and those since are lists that contracts alone see. They take no memory.
#[derive(Drop)]
pub struct StorePass<S: Strip> {
    pub(crate) log: Segment<S>,
    pub(crate) map: MemoryRows,
    /// The number of the first entry since the opening.
    pub(crate) begun: u64,
    pub(crate) opened: Snapshot<ToldEntries>,
    pub(crate) made: ToldEntries,
}

impl<S: Strip> Model for StorePass<S> {
    ghost use Rattle.store_run.specs.StoreState.{StoreState};
    ghost use Rattle.store_run.specs.Kept.{IsStore};
    ghost use Rattle.store_run.specs.Rows.{rows_of};

    ghost Value = { StoreState S };

    ghost view = { λ p. record { log = p.log; opened = p.opened.value; made = p.made } };

    ghost invariant = { λ p. IsStore S.Strip p.log (rows_of p.map) p.begun p.opened.value p.made };
}

impl<S: Strip> StorePass<S> {
    /// The value at a key, and the number after the last entry.
    pub fn get(&self, alloc: Global, key: &Key) -> Result<Found, NoMemory>
        ensures { GetMoves (pass_of S.Strip self.now) key.now result (pass_of S.Strip self.now) }
    {
        let front = self.log.end();
        let value = copy_at(alloc, &self.map, key)?;
        Ok(Found { front, value })
    }

    /// Makes every update so far outlast a crash, and answers with the number after the last. With nothing pending and
    /// no frame in doubt it makes no device call.
    pub fn sync(&mut self, alloc: Global) -> Result<u64, SyncError>
        ensures moves { SyncMoves (pass_of S.Strip self.old) result (pass_of S.Strip self.new) }
        ensures unit { HasSyncUnit (λ _. record { device = 0 }) result }
        ensures stays { Stays self.old self.new }
        // If it succeeds, the bytes and each crash image have all updates.
        ensures durable { OnOk result (OfBytes S.Strip self.new.log.journal.strip (ReopensWhole self.new)
            × OfImages S.Strip self.new.log.journal.strip (ReopensWhole self.new)) }
        ensures calls { CallsOf S.Strip 8 self.old self.new }
        ensures one_frame { has_staged self.old.log.journal ≡ false →
            S.calls self.new.log.journal.strip ≤ S.calls self.old.log.journal.strip + 4 }
        ensures nothing { has_staged self.old.log.journal ≡ false → self.old.log.batch.entries ≡ [] →
            self.new ≡ self.old }
    {
        self.tell_synced();
        let flushed = self.log.flush(alloc);
        self.tell_synced();
        Ok(flushed?)
    }

    /// The strip's bytes, and each crash image of them, reopen to the map after the first so many entries, no fewer than
    /// are synced; each entry since the opening is the one caller's. It does nothing.
    pub fn tell_synced(&self)
        ensures content { OfBytes S.Strip self.now.log.journal.strip (ReopensSynced self.now) }
        ensures images { OfImages S.Strip self.now.log.journal.strip (ReopensSynced self.now) }
        ensures own { AllByRecursion (λ entry. entry.caller ≡ 0) self.now.made }
        ensures most { end (history_of self.now) ≤ NUMBER_MAX }
        ensures device { (S.book self.now.log.journal.strip).device ≡ 0 }
    {
        self.log.tell_images();
    }
}
