//! How the table's steps, splits and joins are used: what each makes of the parts of its seat.
use crate::rule::Parts;
use crate::store_name::StoreName;
use crate::told::TellsEntry;
use atomic_table::{Join, Play, Split};
use std::marker::PhantomData;

/// Two seats' parts are put together as they are.
pub(crate) struct Together;

impl Join<Parts> for Together {
    ghost use Rattle.std.specs.Prelude.{◌++◌, []};

    ghost both = { λ v w. v ++ w };

    ghost spent = { [] };
}

/// The last part is given away.
pub(crate) struct Last;

impl Split<Parts> for Last {
    ghost use Rattle.seat_parts.specs.Seats.{but_last, last};

    ghost left = { but_last };

    ghost right = { last };
}

/// The step that appends an entry.
pub(crate) struct Append<K: StoreName, E: TellsEntry> {
    of: PhantomData<(K, E)>,
}

impl<K: StoreName, E: TellsEntry> Play<u8, Parts> for Append<K, E> {
    ghost use Rattle.seat_parts.specs.Seats.{Told};
    ghost use Rattle.front_rule.specs.Steps.{Appends};

    ghost then = { Told (Appends K.first E.entry) };
}

/// The step that ends the open memtable and begins the next one.
pub(crate) struct Freeze<K: StoreName> {
    of: PhantomData<K>,
}

impl<K: StoreName> Play<u8, Parts> for Freeze<K> {
    ghost use Rattle.seat_parts.specs.Seats.{Told};
    ghost use Rattle.front_rule.specs.Steps.{Freezes};

    ghost then = { Told (Freezes K.first) };
}

/// A kind of step that loads the word and leaves it.
pub(crate) trait Kind {
    ghost use Rattle.std.specs.Prelude.{ℕ, List};
    ghost use Rattle.seat_parts.specs.Seats.{Goes};
    ghost use Rattle.front_rule.specs.Rule.{Sound};
    ghost use Rattle.front_rule.specs.declared.parts.Part.{Part};

    /// With which parts it can be taken, where the history's first number is this.
    ghost can: { ℕ → List Part → Type 0 };

    /// What it tells of the history's first number, the parts before, the word found and the parts after.
    ghost tells: { ℕ → List Part → ℕ → List Part → Type 0 };

    /// It keeps the rule, and what it tells is so. This does nothing.
    fn goes()
        ensures { (first : ℕ) (v : List Part) → can first v → Goes (Sound first) v (λ n. n) (tells first v) };
}

/// A step of this kind.
pub(crate) struct Of<K: StoreName, X: Kind> {
    of: PhantomData<(K, X)>,
}

impl<K: StoreName, X: Kind> Play<u8, Parts> for Of<K, X> {
    ghost use Rattle.seat_parts.specs.Seats.{Told};

    ghost then = { Told (X.tells K.first) };
}
