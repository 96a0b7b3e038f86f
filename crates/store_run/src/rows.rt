//! The rows in memory as a map, and how an entry goes into them and into the log.
ghost use Rattle.std.specs.Prelude.{◌≡◌, ◌+◌, ◌≤◌, ◌++◌, ◌∷◌, [], false, length, IfOk, OnOk, OnErr};
ghost use Rattle.std.specs.Option.{option_copied};
ghost use Rattle.entry_code.specs.Payloads.{entry_field};
ghost use Rattle.rdb_base.specs.Laws.{left_by};
ghost use Rattle.rdb_base.specs.Maps.{IsRising, changed, value_at};
ghost use Rattle.store_run.specs.Appending.{MayAppend, Appends};
ghost use Rattle.store_run.specs.Rows.{rows_of};

use disk_model::Strip;
use memory_rows::MemoryRows;
use rdb_base::{Change, Entry, Key, NoMemory, Pair, ToldEntries, Value};
use std::alloc::Global;
use wal_log::Segment;

/// The value at a key.
fn get<'a>(rows: &'a MemoryRows, key: &Key) -> Option<&'a Value>
    ensures value { option_copied result ≡ value_at (rows_of rows.now) key.now }
    ensures rises { IsRising (rows_of rows.now) }
{
    match rows.find(key) {
        Some(change) => value_in(change),
        None => None,
    }
}

/// The value that a change gives, if it gives one.
fn value_in(change: &Change) -> Option<&Value>
    ensures { option_copied result ≡ left_by change.now }
{
    match change {
        Change::Put(value) => Some(value),
        Change::Del => None,
    }
}

/// A copy of the value at a key.
pub(crate) fn copy_at(
    alloc: Global,
    rows: &MemoryRows,
    key: &Key,
) -> Result<Option<Value>, NoMemory>
    ensures { IfOk result (λ value. value ≡ value_at (rows_of rows.now) key.now) }
{
    match get(rows, key) {
        Some(value) => Ok(Some(value.try_copy(alloc)?)),
        None => Ok(None),
    }
}

/// Whether the rows take a change in: all but the deletion of a key that has no value. Nothing older lies below the rows,
/// so such a deletion hides nothing.
fn takes(rows: &MemoryRows, key: &Key, change: &Change) -> bool
    ensures { result ≡ false → changed (rows_of rows.now) key.now change.now ≡ rows_of rows.now }
{
    match change {
        Change::Put(_) => true,
        Change::Del => get(rows, key).is_some(),
    }
}

/// Makes this change at the key.
pub(crate) fn set(
    alloc: Global,
    rows: &mut MemoryRows,
    key: Key,
    change: Change,
) -> Result<(), NoMemory>
    ensures changed { OnOk result (rows_of rows.new ≡ changed (rows_of rows.old) key change) }
    ensures refused { OnErr result (rows_of rows.new ≡ rows_of rows.old) }
{
    if !takes(rows, &key, &change) {
        return Ok(());
    }
    rows.reserve(alloc, &key)?;
    rows.set_reserved(Pair { key, change });
    Ok(())
}

/// Appends an entry to a log that has room for it, and makes its change. The memory of the rows is taken first: if it is
/// refused, neither is done.
pub(crate) fn append<S: Strip>(
    alloc: Global,
    rows: &mut MemoryRows,
    log: &mut Segment<S>,
    made: &mut ToldEntries,
    entry: Entry,
) -> Result<u64, NoMemory>
    requires room { length (entry_field entry) ≤ log.old.batch.room }
    requires open { MayAppend log.old }
    ensures number { IfOk result (λ number. number ≡ log.old.first + length log.old.entries) }
    ensures rows { OnOk result (rows_of rows.new ≡ changed (rows_of rows.old) entry.key entry.change) }
    ensures made { OnOk result (made.new ≡ made.old ++ entry ∷ []) }
    ensures appended { OnOk result (Appends log.old entry log.new) }
    ensures refused { OnErr result ((rows_of rows.new ≡ rows_of rows.old)
        × (made.new ≡ made.old) × (log.new ≡ log.old)) }
{
    if !takes(rows, &entry.key, &entry.change) {
        return Ok(push(log, made, &entry));
    }
    rows.reserve(alloc, &entry.key)?;

    // From here on nothing is refused.
    let number = push(log, made, &entry);
    let pair = Pair {
        key: entry.key,
        change: entry.change,
    };
    rows.set_reserved(pair);
    Ok(number)
}

/// Appends an entry to a log that has room for it.
fn push<S: Strip>(log: &mut Segment<S>, made: &mut ToldEntries, entry: &Entry) -> u64
    requires room { length (entry_field entry.now) ≤ log.old.batch.room }
    requires open { MayAppend log.old }
    ensures number { result ≡ log.old.first + length log.old.entries }
    ensures made { made.new ≡ made.old ++ entry.now ∷ [] }
    ensures appended { Appends log.old entry.now log.new }
{
    made.push(entry);
    log.push(entry)
}
