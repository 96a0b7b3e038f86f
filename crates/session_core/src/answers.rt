ghost use Rattle.std.specs.Prelude.{ℕ};
ghost use Rattle.rdb_base.specs.declared.change.Change.TheVariants.{Put, Del};
ghost use Rattle.disk_model.specs.Books.{BookName};
ghost use Rattle.history_core.specs.Passes.{PassState};
ghost use Rattle.session_core.specs.StoreCalls.{UpdateMoves, GetMoves, SyncMoves, HasUpdateUnit, HasSyncUnit};

use crate::found::Found;
use crate::sync_error::SyncError;
use crate::update_error::UpdateError;
use rdb_base::{Key, NoMemory, Value};
use std::alloc::Global;

/// A store that answers a session: one history, to which others may add, and devices that may fail.
///
/// Each call is one operation of the caller's pass. A failure of a device is told to the pass, and nothing else is; its
/// unit is of that device's own book.
pub trait Answers {
    /// What one caller keeps of the store from call to call.
    type Pass;

    /// What the caller knows of the history, and how many failures it was told.
    ghost state: { Self.Pass → PassState };

    /// The book of each device.
    ghost books: { ℕ → BookName };

    /// Gives the key this value, and answers the update's number.
    fn put(
        &self,
        alloc: Global,
        pass: &mut Self::Pass,
        key: Key,
        value: Value,
    ) -> Result<u64, UpdateError>
        ensures moves { UpdateMoves (state pass.old) key (Put value) result (state pass.new) }
        ensures unit { HasUpdateUnit books result };

    /// Takes the key's value away, and answers the update's number. A key that has no value may be deleted too.
    fn delete(&self, alloc: Global, pass: &mut Self::Pass, key: Key) -> Result<u64, UpdateError>
        ensures moves { UpdateMoves (state pass.old) key Del result (state pass.new) }
        ensures unit { HasUpdateUnit books result };

    /// Looks at a key.
    fn get(&self, alloc: Global, pass: &mut Self::Pass, key: &Key) -> Result<Found, NoMemory>
        ensures moves { GetMoves (state pass.old) key.now result (state pass.new) };

    /// Makes each entry that the pass has seen outlast a crash, and answers the number up to which all entries do.
    fn sync(&self, alloc: Global, pass: &mut Self::Pass) -> Result<u64, SyncError>
        ensures moves { SyncMoves (state pass.old) result (state pass.new) }
        ensures unit { HasSyncUnit books result };
}
