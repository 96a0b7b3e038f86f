//! How a store's pass is opened: the log is read, its entries become the map, and the segment is started.
ghost use Rattle.std.specs.Prelude.{◌≡◌, [], IfOk, IfErr};
ghost use Rattle.rdb_base.specs.Maps.{applied_all};
ghost use Rattle.store_run.specs.Openings.{IsOpened, IsRefused};
ghost use Rattle.store_run.specs.Rows.{rows_of};

use crate::open_error::OpenError;
use crate::rows::set;
use crate::store_pass::StorePass;
use disk_model::Strip;
use memory_rows::MemoryRows;
use rdb_base::{Entry, NoMemory, ToldEntries};
use std::alloc::Global;
use std::snapshot::Snapshot;
use wal_log::Segment;

/// The map after these entries, and the entries as contracts see them. Keys and values move into the map.
fn map_after(alloc: Global, entries: Vec<Entry>) -> Result<(MemoryRows, ToldEntries), NoMemory>
    ensures map { IfOk result (λ found. rows_of found.0 ≡ applied_all [] entries.items) }
    ensures told { IfOk result (λ found. found.1 ≡ entries.items) }
{
    let mut map = MemoryRows::make(alloc)?;
    let mut told = ToldEntries::new();
    for entry in entries {
        told.push(&entry);
        set(alloc, &mut map, entry.key, entry.change)?;
    }
    Ok((map, told))
}

impl<S: Strip> StorePass<S> {
    /// Opens a strip as a log that begins in segment 0 with number 0, and starts the segment where it has no header. A
    /// strip that is refused comes back.
    pub(crate) fn open(alloc: Global, strip: S) -> Result<StorePass<S>, (S, OpenError)>
        requires { (S.book strip).device ≡ 0 }
        ensures opened { IfOk result (IsOpened S.Strip strip) }
        ensures refused { IfErr result (λ refused. IsRefused S.Strip refused.1 strip refused.0) }
    {
        match Segment::open(alloc, strip, 0, 0) {
            Ok((mut log, entries)) => {
                let begun = log.end();
                let Ok((map, opened)) = map_after(alloc, entries) else {
                    return Err((log.into_strip(), OpenError::Memory));
                };
                if let Err(error) = log.start(alloc) {
                    return Err((log.into_strip(), OpenError::from(error)));
                }
                log.tell_images();
                Ok(StorePass {
                    log,
                    map,
                    begun,
                    opened: Snapshot::of(&opened),
                    made: ToldEntries::new(),
                })
            }
            Err((strip, error)) => Err((strip, OpenError::from(error))),
        }
    }
}
