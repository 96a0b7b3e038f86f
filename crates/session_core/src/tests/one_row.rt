//! A store with room for one row, to which another caller may add.
ghost use Rattle.std.specs.Prelude.{◌≡◌, ◌≤◌, [], OnOk, IfErr, OnErr};
ghost use Rattle.fault_count.specs.Counts.{one_more};
ghost use Rattle.disk_model.specs.declared.device_error.DeviceError.TheVariants.{Fault};
ghost use Rattle.history_core.specs.Passes.{Grows};
ghost use Rattle.session_core.specs.StoreCalls.{UpdateMoves, HasUpdateUnit};

use crate::tests::seen::Seen;
use crate::{Answers, Found, SyncError, UpdateError};
use disk_model::{DeviceError, FaultBook};
use rdb_base::{Change, Entry, Key, NUMBER_MAX, NoMemory, Row, Value};
use std::alloc::Global;
use std::marker::Model;

/// What caller 0 has seen, a row that caller 1 puts inside the next get, and a strip that fails at the next update or
/// sync, or at none.
#[derive(Drop)]
pub struct OneRowPass {
    pub seen: Seen,
    pub other: Option<Row>,
    pub book: FaultBook,
    pub is_failing: bool,
}

impl Model for OneRowPass {
    ghost use Rattle.std.specs.Prelude.{◌≡◌};
    ghost use Rattle.history_core.specs.Passes.{PassState};

    ghost Value = { PassState };

    ghost view = { λ p. record p.seen { told = p.book.count } };

    ghost invariant = { λ p. p.book.name.device ≡ 0 };
}

impl OneRowPass {
    /// The strip fails, if it is to.
    fn call_strip(&mut self, alloc: Global) -> Result<(), DeviceError>
        ensures ok { OnOk result (self.new ≡ self.old) }
        ensures failed { IfErr result (λ error. (error ≡ Fault (record { device = 0 }))
            × (self.new ≡ record self.old { told = one_more self.old.told })) }
    {
        if !self.is_failing {
            return Ok(());
        }
        self.is_failing = false;
        Err(self.book.fail(alloc))
    }

    /// The other caller's put comes to be seen, if there is one and room for it.
    fn hear(&mut self)
        ensures grows { Grows self.old self.new [] }
        ensures told { self.new.told ≡ self.old.told }
    {
        let Some(Row { key, value }) = self.other.take() else {
            return;
        };
        if self.seen.front() == NUMBER_MAX {
            return;
        }
        let entry = Entry {
            caller: 1,
            ordinal: 0,
            key,
            change: Change::Put(value),
        };
        let Ok(_) = self.seen.see(entry) else {
            return;
        };
    }

    fn update(&mut self, alloc: Global, key: Key, change: Change) -> Result<u64, UpdateError>
        ensures moves { UpdateMoves self.old key change result self.new }
        ensures unit { HasUpdateUnit (λ device. record { device = device }) result }
    {
        self.call_strip(alloc)?;
        let next = self.seen.next();
        if next >= NUMBER_MAX {
            return Err(UpdateError::NumbersSpent { next });
        }
        let number = self.seen.front();
        if number == NUMBER_MAX {
            return Err(UpdateError::HistorySpent { number });
        }
        let Ok(number) = self.seen.enter(key, change) else {
            return Err(UpdateError::Memory);
        };
        Ok(number)
    }
}

/// A store of one row at most: an update of another key is out of memory.
pub struct OneRow;

impl Answers for OneRow {
    type Pass = OneRowPass;

    ghost state = { λ pass. pass };

    ghost books = { λ device. record { device = device } };

    fn put(
        &self,
        alloc: Global,
        pass: &mut OneRowPass,
        key: Key,
        value: Value,
    ) -> Result<u64, UpdateError> {
        pass.update(alloc, key, Change::Put(value))
    }

    fn delete(&self, alloc: Global, pass: &mut OneRowPass, key: Key) -> Result<u64, UpdateError> {
        pass.update(alloc, key, Change::Del)
    }

    #[tactic(auto, using(crate::proofs::OneRowLemmas::looks))]
    fn get(&self, alloc: Global, pass: &mut OneRowPass, key: &Key) -> Result<Found, NoMemory> {
        pass.hear();
        let front = pass.seen.front();
        let value = match pass.seen.get(key) {
            Some(value) => Some(value.try_copy(alloc)?),
            None => None,
        };
        Ok(Found { front, value })
    }

    fn sync(&self, alloc: Global, pass: &mut OneRowPass) -> Result<u64, SyncError> {
        pass.call_strip(alloc)?;
        Ok(pass.seen.save())
    }
}
