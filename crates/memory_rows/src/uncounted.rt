//! Calls of the leaves whose steps nobody counts.
ghost use Rattle.std.specs.Prelude.{◌≡◌, ◌<◌, ◌⊎◌, OnOk, OnErr, IsErrOf};
ghost use Rattle.std.specs.Option.{option_copied};
ghost use Rattle.rdb_base.specs.Levels.{with_pair, or_change};
ghost use Rattle.rdb_base.specs.Runs.{change_at};
ghost use Rattle.leaf_table.specs.Chains.{pairs_of, HasRoomAt};
ghost use Rattle.leaf_table.specs.Splits.{SplitsAt, IsFullAt};

use leaf_table::{LeafTable, SplitError};
use rdb_base::{Change, Key, Pair, SortedRun, Steps};
use std::alloc::Global;
use std::sync::ledger::{Blank, Ledger};

/// The change at a key: that of the leaves, or else that of the older run.
pub(crate) fn find_in<'a, L: Ledger>(
    table: &'a LeafTable,
    older: &'a SortedRun,
    key: &Key,
    blank: Blank,
) -> Option<&'a Change>
    requires name { blank.name ≡ L.name }
    requires parts { blank.parts ≡ L.parts }
    requires some { 0 < blank.parts }
    ensures { option_copied result ≡ or_change (change_at (pairs_of table.now) key.now) (change_at older.now key.now) }
{
    let mut steps = Steps::<L>::begin(blank);
    match table.find(key, &mut steps) {
        Some(change) => Some(change),
        None => older.find(key.as_bytes(), &mut steps),
    }
}

/// Splits the leaf of a key where it has no room for a change there.
pub(crate) fn make_room<L: Ledger>(
    alloc: Global,
    table: &mut LeafTable,
    key: &Key,
    blank: Blank,
) -> Result<(), SplitError>
    requires name { blank.name ≡ L.name }
    requires parts { blank.parts ≡ L.parts }
    requires some { 0 < blank.parts }
    ensures pairs { pairs_of table.new ≡ pairs_of table.old }
    ensures room { OnOk result (HasRoomAt table.new key.now) }
    ensures makes { OnOk result ((HasRoomAt table.old key.now × (table.new ≡ table.old))
        ⊎ ((HasRoomAt table.old key.now → ⊥) × SplitsAt table.old key.now table.new)) }
    ensures refused { OnErr result (table.new ≡ table.old) }
    ensures full { IsErrOf result SplitError.Full
        → (HasRoomAt table.old key.now → ⊥) × IsFullAt table.old key.now }
{
    let mut steps = Steps::<L>::begin(blank);
    if table.has_room(key, &mut steps) {
        return Ok(());
    }
    table.split_at(alloc, key, &mut steps)
}

/// Sets a pair for which there is room.
pub(crate) fn set_in<L: Ledger>(table: &mut LeafTable, pair: Pair, blank: Blank)
    requires name { blank.name ≡ L.name }
    requires parts { blank.parts ≡ L.parts }
    requires some { 0 < blank.parts }
    requires room { HasRoomAt table.old pair.key }
    ensures { pairs_of table.new ≡ with_pair (pairs_of table.old) pair }
{
    let mut steps = Steps::<L>::begin(blank);
    let _old = table.put_reserved(pair, &mut steps);
}
