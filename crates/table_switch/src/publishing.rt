//! The rule of what is published, as the kit's two copies take it.

use crate::front::Front;
use crate::trie_copy::TrieCopy;
use atomic_table::{Join, Split};
use crossbeam_utils::rule::{Outcome, Protocol};

/// What a seat knows: the front that it has seen. No value of it is made.
pub type Known = Option<Front>;

/// What each seat knows is a front of what is published.
pub struct Rises;

impl Protocol<TrieCopy, Known> for Rises {
    ghost use Rattle.std.specs.Prelude.{None};
    ghost use Rattle.table_switch.specs.Published.{Keeps};

    ghost holds = { λ copy. Keeps copy };

    ghost first = { None };
}

/// A seat sees all that is published.
pub(crate) struct Looks;

impl Outcome<TrieCopy, Known> for Looks {
    ghost use Rattle.table_switch.specs.Published.{Sees};

    ghost then = { λ before shown published after. Sees before published after };
}

/// The writer tells all that it knows.
pub(crate) struct Tells;

impl Split<Known> for Tells {
    ghost left = { λ known. known };

    ghost right = { λ known. known };
}

/// A new reader takes what it is told.
pub(crate) struct Takes;

impl Join<Known> for Takes {
    ghost use Rattle.std.specs.Prelude.{None};

    ghost both = { λ known told. told };

    ghost spent = { None };
}
