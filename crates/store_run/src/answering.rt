//! A store as a session asks it.
ghost use Rattle.store_run.specs.Stores.{pass_of};

use crate::store::Store;
use crate::store_pass::StorePass;
use disk_model::{Shelf, Strip};
use rdb_base::{Key, NoMemory, Value};
use session_core::{Answers, Found, SyncError, UpdateError};
use std::alloc::Global;

impl<S: Strip + Drop, H: Shelf + Drop> Answers for Store<S, H> {
    type Pass = StorePass<S>;

    ghost state = { pass_of S.Strip };

    ghost books = { λ _. record { device = 0 } };

    fn put(
        &self,
        alloc: Global,
        pass: &mut StorePass<S>,
        key: Key,
        value: Value,
    ) -> Result<u64, UpdateError> {
        pass.put(alloc, key, value)
    }

    fn delete(&self, alloc: Global, pass: &mut StorePass<S>, key: Key) -> Result<u64, UpdateError> {
        pass.delete(alloc, key)
    }

    fn get(&self, alloc: Global, pass: &mut StorePass<S>, key: &Key) -> Result<Found, NoMemory> {
        pass.get(alloc, key)
    }

    fn sync(&self, alloc: Global, pass: &mut StorePass<S>) -> Result<u64, SyncError> {
        pass.sync(alloc)
    }
}
