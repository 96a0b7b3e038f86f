//! The callers' passes.
ghost use Rattle.std.specs.Prelude.{◌≡◌, ◌+◌, ◌≤◌, ◌^◌, length};
ghost use Rattle.rdb_base.specs.Histories.{calls_of};

use crate::desk::Desk;
use crate::rule::Parts;
use crate::store_name::StoreName;
use atomic_table::Badge;
use std::marker::Model;

/// The seat of one caller: it knows what the caller has seen, and the caller's own calls. A call, here and in
/// `calls_of`, is an update that stands in the list as an entry: a read is none. Contracts see a pass as what it
/// knows.
///
/// # Threads
///
/// Its caller has it, and hands it to each call through a `&mut`. So a caller makes one call at a time.
#[derive(Drop)]
pub struct Pass<K: StoreName> {
    pub(crate) badge: Badge<Parts>,
    pub(crate) desk: Desk<K>,
    pub(crate) caller: u32,
    /// How many entries its caller has in the list: the ordinal of its next one.
    pub(crate) ordinal: u64,
    /// The number after the last entry's that it has seen.
    pub(crate) front: u64,
    /// The number of the memtable in which that ends.
    pub(crate) memtable: u64,
}

impl<K: StoreName> Model for Pass<K> {
    ghost use Rattle.std.specs.Prelude.{◌≡◌};
    ghost use Rattle.front_rule.specs.declared.parts.PassPart.{PassPart};
    ghost use Rattle.front_rule.specs.Marks.{pass_of, PassHolds};

    ghost Value = { PassPart };

    ghost view = { λ s. pass_of s.badge.views };

    ghost invariant = { λ s. (s.badge.table_id ≡ K.table)
        × PassHolds K.first s.badge.views
        (record { caller = s.caller; ordinal = s.ordinal; front = s.front; memtable = s.memtable }) };
}

impl<K: StoreName> Pass<K> {
    /// The number after the last entry's that it has seen. A crate above learns here what holds of every pass: that
    /// number is at most 2^62, and its caller's calls in what it has seen are its own.
    pub fn front(&self) -> u64
        ensures front { result ≡ K.first + length self.now.seen }
        ensures within { result ≤ 2 ^ 62 }
        ensures own { calls_of self.now.seen self.now.caller ≡ self.now.own }
    {
        self.front
    }

    /// The number of its caller.
    pub fn caller(&self) -> u32
        ensures { result ≡ self.now.caller }
    {
        self.caller
    }

    /// The ordinal of its caller's next entry.
    pub fn ordinal(&self) -> u64
        ensures { result ≡ length self.now.own }
    {
        self.ordinal
    }

    /// The number of the memtable that it has come to.
    pub fn memtable(&self) -> u64
        ensures { result ≡ self.now.memtable }
    {
        self.memtable
    }
}
