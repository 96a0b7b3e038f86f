//! Notes of the live and the next number.
ghost use Rattle.std.specs.Prelude.{◌≡◌};

use crate::rule::Parts;
use crate::store_name::StoreName;
use atomic_table::Badge;
use std::marker::{Model, PhantomData};

/// A seat that knows the keeper's numbers at some time. Contracts see it as what it knows.
#[derive(Drop)]
pub struct LiveNote<K: StoreName> {
    pub(crate) badge: Badge<Parts>,
    pub(crate) live: u64,
    pub(crate) next: u64,
    pub(crate) of: PhantomData<K>,
}

impl<K: StoreName> Model for LiveNote<K> {
    ghost use Rattle.std.specs.Prelude.{◌≡◌};
    ghost use Rattle.front_rule.specs.declared.parts.LivePart.{LivePart};
    ghost use Rattle.front_rule.specs.Marks.{live_of, LiveHolds};

    ghost Value = { LivePart };

    ghost view = { λ s. live_of s.badge.views };

    ghost invariant = { λ s. (s.badge.table_id ≡ K.table) × LiveHolds s.badge.views s.live s.next };
}

impl<K: StoreName> LiveNote<K> {
    /// The number of the first segment of the log that was still needed.
    pub fn live(&self) -> u64
        ensures { result ≡ self.now.live }
    {
        self.live
    }

    /// The number of the next table file.
    pub fn next(&self) -> u64
        ensures { result ≡ self.now.next }
    {
        self.next
    }
}
