//! How an update is entered: a flush where enough is pending, then all memory, then the append.
ghost use Rattle.std.specs.Prelude.{◌≡◌, ◌<◌, length, Ok, OnOk, IfOk};
ghost use Rattle.rdb_base.specs.Histories.{end};
ghost use Rattle.rdb_base.specs.declared.change.Change.TheVariants.{Put, Del};
ghost use Rattle.rdb_base.specs.declared.limits.TheConstants.{NUMBER_MAX};
ghost use Rattle.frame_journal.specs.Devices.{CauseIn};
ghost use Rattle.entry_code.specs.Payloads.{entry_fields};
ghost use Rattle.wal_log.specs.declared.limits.TheConstants.{PENDING_MAX};
ghost use Rattle.session_core.specs.StoreCalls.{UpdateMoves, HasUpdateUnit};
ghost use Rattle.store_run.specs.Stores.{pass_of, history_of, CallsOf, Stays, EntersOnly};

use crate::rows::append;
use crate::store_pass::StorePass;
use disk_model::{DeviceError, Strip};
use rdb_base::{Change, Entry, Key, NUMBER_MAX, NoMemory, Value};
use session_core::UpdateError;
use std::alloc::Global;
use wal_log::PENDING_MAX;

impl<S: Strip> StorePass<S> {
    /// Gives the key this value, and answers the update's number.
    pub fn put(&mut self, alloc: Global, key: Key, value: Value) -> Result<u64, UpdateError>
        ensures moves { UpdateMoves (pass_of S.Strip self.old) key (Put value) result (pass_of S.Strip self.new) }
        ensures unit { HasUpdateUnit (λ _. record { device = 0 }) result }
        ensures enters { EntersOnly self.old key (Put value) result self.new }
        ensures calls { CallsOf S.Strip 8 self.old self.new }
        // Where less than `PENDING_MAX` is pending, the strip is left alone.
        ensures quiet { length (entry_fields self.old.log.batch.entries) < PENDING_MAX →
            self.new.log.journal ≡ self.old.log.journal }
    {
        self.update(alloc, key, Change::Put(value))
    }

    /// Takes the key's value away, and answers the update's number. A key that has no value may be deleted too.
    pub fn delete(&mut self, alloc: Global, key: Key) -> Result<u64, UpdateError>
        ensures moves { UpdateMoves (pass_of S.Strip self.old) key Del result (pass_of S.Strip self.new) }
        ensures unit { HasUpdateUnit (λ _. record { device = 0 }) result }
        ensures enters { EntersOnly self.old key Del result self.new }
        ensures calls { CallsOf S.Strip 8 self.old self.new }
        ensures quiet { length (entry_fields self.old.log.batch.entries) < PENDING_MAX →
            self.new.log.journal ≡ self.old.log.journal }
    {
        self.update(alloc, key, Change::Del)
    }

    /// Makes a change.
    fn update(&mut self, alloc: Global, key: Key, change: Change) -> Result<u64, UpdateError>
        ensures moves { UpdateMoves (pass_of S.Strip self.old) key change result (pass_of S.Strip self.new) }
        ensures unit { HasUpdateUnit (λ _. record { device = 0 }) result }
        ensures enters { EntersOnly self.old key change result self.new }
        ensures calls { CallsOf S.Strip 8 self.old self.new }
        ensures quiet { length (entry_fields self.old.log.batch.entries) < PENDING_MAX →
            self.new.log.journal ≡ self.old.log.journal }
    {
        self.tell_synced();
        self.make_room(alloc)?;
        let number = self.log.end();
        if number == NUMBER_MAX {
            return Err(UpdateError::HistorySpent { number });
        }
        match self.enter(alloc, key, change) {
            Ok(number) => Ok(number),
            Err(_) => Err(UpdateError::Memory),
        }
    }

    /// Flushes where enough is pending.
    fn make_room(&mut self, alloc: Global) -> Result<(), DeviceError>
        ensures room { OnOk result (length (entry_fields self.new.log.batch.entries) < PENDING_MAX) }
        ensures stays { Stays self.old self.new }
        ensures calls { CallsOf S.Strip 8 self.old self.new }
        ensures cause { CauseIn S.Strip self.old.log.journal.strip self.new.log.journal.strip result }
        ensures quiet { length (entry_fields self.old.log.batch.entries) < PENDING_MAX →
            (result ≡ Ok tt) × (self.new ≡ self.old) }
    {
        self.tell_synced();
        if self.log.pending() < PENDING_MAX {
            return Ok(());
        }
        self.log.flush(alloc)?;
        Ok(())
    }

    /// Enters an update: takes the memory of the log and of the map, then appends.
    fn enter(&mut self, alloc: Global, key: Key, change: Change) -> Result<u64, NoMemory>
        requires pending { length (entry_fields self.old.log.batch.entries) < PENDING_MAX }
        requires some { end (history_of self.old) < NUMBER_MAX }
        ensures enters { EntersOnly self.old key change result self.new }
        ensures below { IfOk result (λ number. number < NUMBER_MAX) }
        ensures synced { self.new.log.synced ≡ self.old.log.synced }
        ensures journal { self.new.log.journal ≡ self.old.log.journal }
    {
        let entry = Entry {
            caller: 0,
            ordinal: self.log.end() - self.begun,
            key,
            change,
        };
        self.log.reserve(&entry)?;
        append(alloc, &mut self.map, &mut self.log, &mut self.made, entry)
    }
}
