//! The rule over the history's word and what all seats know.
use crate::origin::Origin;
use crate::parts::Part;
use atomic_table::TableRule;
use std::collections::LinkedList;

/// What one seat knows.
pub type Parts = LinkedList<Part>;

/// The rule: there is one list, as long as the word says, and each seat knows a part of it.
pub struct FrontRule;

impl TableRule<u8, Parts, Origin> for FrontRule {
    ghost use Rattle.front_rule.specs.Rule.{Sound, opening_parts};
    ghost use Rattle.seat_parts.specs.Seats.{Holds};

    ghost holds = { λ o s. Holds (Sound o.first) s };

    ghost first = { opening_parts };
}
