//! The pen.
ghost use Rattle.std.specs.Prelude.{◌≡◌};

use crate::desk::Desk;
use crate::rule::Parts;
use crate::store_name::StoreName;
use atomic_table::Seat;
use std::marker::Model;

/// The one seat that knows the whole list, and without which no entry is appended. Contracts see it as what it knows.
///
/// # Threads
///
/// There is one, and it is changed through a `&mut`: so it lies under a lock, the log's.
#[derive(Drop)]
pub struct Pen<K: StoreName> {
    pub(crate) seat: Seat<u8, Parts>,
    pub(crate) desk: Desk<K>,
    /// The number after the last entry's.
    pub(crate) front: u64,
    /// The number of the open memtable.
    pub(crate) memtable: u64,
}

impl<K: StoreName> Model for Pen<K> {
    ghost use Rattle.std.specs.Prelude.{◌≡◌, []};
    ghost use Rattle.front_rule.specs.declared.parts.PenPart.{PenPart};
    ghost use Rattle.front_rule.specs.Marks.{pen_of, PenHolds};

    ghost Value = { PenPart };

    ghost view = { λ s. pen_of s.seat.me.0 };

    ghost invariant = { λ s. (s.seat.table_id ≡ K.table)
        × (s.seat.me.1 ≡ [])
        × PenHolds K.first s.seat.me.0 s.front s.memtable };
}

impl<K: StoreName> Pen<K> {
    /// The number of the open memtable.
    pub fn memtable(&self) -> u64
        ensures { result ≡ self.now.memtable }
    {
        self.memtable
    }
}
