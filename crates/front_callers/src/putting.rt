//! One caller puts its rows.
ghost use Rattle.std.specs.Prelude.{◌≡◌, ◌++◌, ◌∷◌, [], IfSome, OnSome};
ghost use Rattle.rdb_base.specs.declared.change.Change.TheVariants.{Put};
ghost use Rattle.front_callers.specs.Callers.{entry_of, puts};

use crate::shared_history::SharedHistory;
use front_rule::{Pass, StoreName};
use rdb_base::{Change, Row};
use std::alloc::Global;
use std::sync::{Mutex, Wait};

// Puts one row, under the lock.
pub(crate) fn put_row<K: StoreName, R: Wait>(
    rt: &R,
    alloc: Global,
    shared: &Mutex<SharedHistory<K>>,
    pass: &mut Pass<K>,
    row: &Row,
) -> Option<u64>
    ensures own { OnSome result (
        pass.new.own ≡ pass.old.own ++ entry_of pass.old row.now.key (Put row.now.value) ∷ []
        ) }
    ensures caller { pass.new.caller ≡ pass.old.caller }
{
    let key = row.key.try_copy(alloc).ok()?;
    let value = row.value.try_copy(alloc).ok()?;
    shared.lock(rt).put(pass, key, Change::Put(value))
}

// Puts all rows, one after the other.
pub(crate) fn put_all<K: StoreName, R: Wait>(
    rt: &R,
    alloc: Global,
    shared: &Mutex<SharedHistory<K>>,
    mut pass: Pass<K>,
    rows: &[Row],
) -> Option<Pass<K>>
    requires { pass.own ≡ [] }
    ensures own { IfSome result (λ p. p.own ≡ puts pass.caller 0 rows.now) }
    ensures caller { IfSome result (λ p. p.caller ≡ pass.caller) }
{
    for row in rows {
        put_row(rt, alloc, shared, &mut pass, row)?;
    }
    Some(pass)
}
