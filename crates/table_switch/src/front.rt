//! What was seen of the anchors of one switch.
ghost use Rattle.std.specs.Prelude.{◌≡◌, ◌⊎◌};
ghost use mathlib.Core.List.{IsPrefix};

use crate::appended::Appended;
use crate::roll::Rolls;
use logbook::Seen;
use std::marker::Model;

/// A beginning of the anchors that were appended on one switch. Contracts see the switch and the anchors. It has no
/// bytes, and stays true: anchors are appended, and never taken back.
///
/// # Threads
///
/// Any thread may have it or share it.
#[derive(Drop)]
pub struct Front {
    pub(crate) seen: Seen<Appended, u64, Rolls>,
}

impl Model for Front {
    ghost use Rattle.table_switch.specs.Published.{FrontState};

    ghost Value = { FrontState };

    ghost view = { λ f. record { switch = f.seen.book; anchors = f.seen.log } };
}

impl Front {
    /// A copy.
    pub fn again(&self) -> Front
        ensures { result ≡ self.now }
    {
        Front {
            seen: self.seen.again(),
        }
    }

    /// Of two fronts of one switch one begins the other, whoever has them. This does nothing: its contract says it.
    pub fn agree(&self, other: &Front)
        requires switch { other.now.switch ≡ self.now.switch }
        ensures one { IsPrefix self.now.anchors other.now.anchors ⊎ IsPrefix other.now.anchors self.now.anchors }
    {
        let mut both = self.seen.again();
        both.learn(&other.seen);
    }
}
