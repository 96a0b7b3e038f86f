//! The marks of leaves.
ghost use Rattle.std.specs.Prelude.{◌≡◌};

use crate::rule::Parts;
use crate::store_name::StoreName;
use atomic_table::Badge;
use std::marker::{Model, PhantomData};

/// The seat of one leaf: it knows all entries of the leaf's range in its memtable. Contracts see it as what it knows.
///
/// # Threads
///
/// It lies beside its leaf, under the leaf's lock. Without it no entry of its range is appended.
#[derive(Drop)]
pub struct LeafMark<K: StoreName> {
    pub(crate) badge: Badge<Parts>,
    /// The number after the last entry's that it has seen.
    pub(crate) front: u64,
    /// The number of its memtable.
    pub(crate) memtable: u64,
    /// The number at which its memtable begins.
    pub(crate) base: u64,
    pub(crate) of: PhantomData<K>,
}

impl<K: StoreName> Model for LeafMark<K> {
    ghost use Rattle.std.specs.Prelude.{◌≡◌};
    ghost use Rattle.front_rule.specs.declared.parts.LeafPart.{LeafPart};
    ghost use Rattle.front_rule.specs.Marks.{leaf_of, LeafHolds};

    ghost Value = { LeafPart };

    ghost view = { λ s. leaf_of s.badge.views };

    ghost invariant = { λ s. (s.badge.table_id ≡ K.table)
        × LeafHolds K.first s.badge.views s.front s.memtable s.base };
}

impl<K: StoreName> LeafMark<K> {
    /// The number of its memtable.
    pub fn memtable(&self) -> u64
        ensures { result ≡ self.now.memtable }
    {
        self.memtable
    }
}
