//! Notes of a front.
ghost use Rattle.std.specs.Prelude.{◌≡◌, ◌+◌, ◌≤◌, ◌^◌, length};

use crate::rule::Parts;
use crate::store_name::StoreName;
use atomic_table::Badge;
use std::marker::{Model, PhantomData};

/// A seat that knows a front of the list. Contracts see it as what it knows.
#[derive(Drop)]
pub struct FrontNote<K: StoreName> {
    pub(crate) badge: Badge<Parts>,
    /// The number after its last entry's.
    pub(crate) front: u64,
    /// The number of the memtable in which it ends.
    pub(crate) memtable: u64,
    pub(crate) of: PhantomData<K>,
}

impl<K: StoreName> Model for FrontNote<K> {
    ghost use Rattle.std.specs.Prelude.{◌≡◌};
    ghost use Rattle.front_rule.specs.declared.parts.NotePart.{NotePart};
    ghost use Rattle.front_rule.specs.Marks.{note_of, NoteHolds};

    ghost Value = { NotePart };

    ghost view = { λ s. note_of s.badge.views };

    ghost invariant = { λ s. (s.badge.table_id ≡ K.table) × NoteHolds K.first s.badge.views s.front s.memtable };
}

impl<K: StoreName> FrontNote<K> {
    /// The number after its last entry's.
    pub fn front(&self) -> u64
        ensures front { result ≡ K.first + length self.now.list }
        ensures within { result ≤ 2 ^ 62 }
    {
        self.front
    }

    /// The number of the memtable in which it ends.
    pub fn memtable(&self) -> u64
        ensures { result ≡ self.now.memtable }
    {
        self.memtable
    }
}
