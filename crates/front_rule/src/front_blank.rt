//! A history's word that has no name yet.
ghost use Rattle.std.specs.Prelude.{◌≡◌, ◌≤◌, ◌^◌, IfOk};

use crate::NoMemory;
use crate::desk::Board;
use crate::origin::Origin;
use crate::rule::Parts;
use atomic_table::{Seat, Table};
use std::alloc::Global;
use std::marker::Model;
use std::sync::Arc;

/// The word of an empty history, with the one seat of its making. Contracts see its table, and with what it was made.
#[derive(Drop)]
pub struct FrontBlank {
    pub(crate) seat: Seat<u8, Parts>,
    pub(crate) board: Board,
    pub(crate) origin: Origin,
}

impl Model for FrontBlank {
    ghost use Rattle.std.specs.Prelude.{◌≡◌, ◌≤◌, ◌^◌, []};
    ghost use Rattle.std.specs.Arc.{arc_value};
    ghost use Rattle.front_rule.specs.Rule.{opening_parts};
    ghost use Rattle.front_rule.specs.Making.{Blank};

    ghost Value = { Blank };

    ghost view = { λ s. record { table = s.seat.table_id; origin = s.origin } };

    ghost invariant = { λ s. ((arc_value s.board).shared.table_id ≡ s.seat.table_id)
        × ((arc_value s.board).shared.key.first ≡ s.origin.first)
        × (s.seat.table_id.words ≡ 1)
        × (s.seat.me ≡ (opening_parts s.origin, []))
        × (s.origin.first ≤ 2 ^ 62) };
}

impl FrontBlank {
    /// The word of a history whose first entry gets the number `first`. Its memtable `memtable` is open, and `live` and
    /// `next` are the live and the next number.
    pub fn make(
        alloc: Global,
        first: u64,
        memtable: u64,
        live: u64,
        next: u64,
    ) -> Result<FrontBlank, NoMemory>
        requires memtable { memtable ≤ first }
        requires first { first ≤ 2 ^ 62 }
        ensures { IfOk result (λ b.
            b.origin ≡ record { first = first; memtable = memtable; live = live; next = next }
            ) }
    {
        let origin = Origin {
            first,
            memtable,
            live,
            next,
        };
        let (table, seat) = Table::of_words(alloc, &[first], &origin)?;
        Ok(FrontBlank {
            seat,
            board: Arc::new(alloc, table)?,
            origin,
        })
    }
}
