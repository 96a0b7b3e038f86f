//! The keeper.
use crate::rule::Parts;
use crate::store_name::StoreName;
use atomic_table::Badge;
use std::marker::{Model, PhantomData};

/// The one seat that keeps the live number, of the first segment of the log that is still needed, and the next
/// number, of the next table file. Neither falls. Contracts see it as what it knows.
///
/// # Threads
///
/// There is one, and it is changed through a `&mut`: so it lies under a lock. It is meant for the compactor, which
/// makes table files of memtables that have ended, and is not there yet.
#[derive(Drop)]
pub struct Keeper<K: StoreName> {
    pub(crate) badge: Badge<Parts>,
    pub(crate) of: PhantomData<K>,
}

impl<K: StoreName> Model for Keeper<K> {
    ghost use Rattle.std.specs.Prelude.{◌≡◌, [], ◌∷◌};
    ghost use Rattle.front_rule.specs.declared.parts.LivePart.{LivePart};
    ghost use Rattle.front_rule.specs.declared.parts.Part.TheVariants.{Keeper};
    ghost use Rattle.front_rule.specs.Marks.{keeper_of};

    ghost Value = { LivePart };

    ghost view = { λ s. keeper_of s.badge.views };

    ghost invariant = { λ s. (s.badge.table_id ≡ K.table)
        × (s.badge.views ≡ (Keeper (keeper_of s.badge.views) ∷ []) ∷ []) };
}
