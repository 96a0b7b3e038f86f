//! The anchors that were appended on one switch: a list that only grows, which lasts for good and takes no memory.
ghost use Rattle.std.specs.Prelude.{◌≡◌, ◌+◌, ◌<◌, ◌^◌, ◌++◌, ◌∷◌, [], true, length, IfSome, IfNone};
ghost use Rattle.table_switch.specs.Published.{with_anchor};
ghost use Rattle.table_switch.specs.Rolls.{head_of};

use crate::appended::Appended;
use crate::front::Front;
use logbook::{Gain, Offer, Plain, Play, Rule, Seen, Start, Word};
use std::marker::Model;

/// The rule of the list.
pub struct Rolls;

impl Rule<Appended, u64> for Rolls {
    ghost use Rattle.std.specs.Prelude.{[]};
    ghost use base.Fml.{ftrue};
    ghost use Rattle.table_switch.specs.Rolls.{HasCount};

    ghost holds = { λ cells anchors. HasCount cells anchors };

    ghost first = { [] };

    ghost hinted = { λ n anchors. Unit {0} };

    ghost shows = { λ anchors. [] };

    ghost keeps = { λ names anchors. ftrue };

    ghost moves = { λ ask before after answer. Unit {0} };
}

/// A writer trades nothing for it.
pub struct Nothing;

impl Gain<Appended, u64> for Nothing {
    ghost use base.Fml.{ftrue};

    ghost after = { λ names about answer. ftrue };
}

/// A step that adds an anchor.
pub struct Add;

impl Play<Appended, u64> for Add {
    ghost use Rattle.table_switch.specs.Rolls.{Adds};

    ghost then = { Adds };
}

impl Plain<Appended, Appended, u64> for Add {
    ghost use Rattle.std.specs.Prelude.{None};

    ghost ask = { λ appended. appended };

    ghost state = { λ appended. None };
}

/// All anchors that were appended on a switch. Its writer has it, and alone adds to it. Contracts see the switch and the
/// anchors.
#[derive(Drop)]
pub struct Roll {
    /// How many anchors there are.
    head: Word<Appended, u64, Rolls>,
    front: Front,
    count: u64,
}

impl Model for Roll {
    ghost use Rattle.std.specs.Prelude.{◌≡◌, length};
    ghost use Rattle.table_switch.specs.Published.{FrontState};
    ghost use Rattle.table_switch.specs.Rolls.{head_of};

    ghost Value = { FrontState };

    ghost view = { λ r. r.front };

    ghost invariant = { λ r. (r.head ≡ head_of r.front.switch) × (r.count ≡ length r.front.anchors) };
}

impl Roll {
    /// A new switch, without an anchor.
    pub(crate) fn open() -> Roll
        ensures { result.anchors ≡ [] }
    {
        let (seen, mut first, _second) = Seen::open(Start::alone(), 0, 0);
        Roll {
            head: Word::tracked(0, &mut first),
            front: Front { seen },
            count: 0,
        }
    }

    /// All of them.
    pub(crate) fn front(&self) -> Front
        ensures { result ≡ self.now }
    {
        self.front.again()
    }

    /// Adds an anchor, and gives all of them with it. `None` where another one was added meanwhile, or their number has
    /// no room: there is neither, since the writer alone adds.
    pub(crate) fn extend(&mut self, appended: &Appended) -> Option<Front>
        ensures added { IfSome result (λ front. (front ≡ self.new) × (self.new ≡ with_anchor self.old appended.now)) }
        ensures none { IfNone result (self.new ≡ self.old) }
    {
        let count = self.count;
        if count == u64::MAX {
            return None;
        }
        let front = next_front(&self.head, &self.front, count, appended)?;
        self.front = front.again();
        self.count = count + 1;
        Some(front)
    }
}

/// The front with one anchor more, where nobody else added one.
fn next_front(
    head: &Word<Appended, u64, Rolls>,
    front: &Front,
    count: u64,
    appended: &Appended,
) -> Option<Front>
    requires head { head.now ≡ head_of front.now.switch }
    requires count { count ≡ length front.now.anchors }
    requires room { count + 1 < 2 ^ 64 }
    ensures { IfSome result (λ next. next ≡ with_anchor front.now appended.now) }
{
    let mut seen = front.seen.again();
    if added(head, &mut seen, count, appended) {
        Some(Front { seen })
    } else {
        None
    }
}

/// Adds an anchor to all that was seen, and says whether it did.
fn added(
    head: &Word<Appended, u64, Rolls>,
    seen: &mut Seen<Appended, u64, Rolls>,
    count: u64,
    appended: &Appended,
) -> bool
    requires head { head.now ≡ head_of seen.old.book }
    requires count { count ≡ length seen.old.log }
    requires room { count + 1 < 2 ^ 64 }
    ensures switch { seen.new.book ≡ seen.old.book }
    ensures added { result ≡ true → seen.new.log ≡ seen.old.log ++ appended.now ∷ [] }
{
    let mut offer: Offer<Appended, u64, Rolls, Nothing> = seen.plain::<Nothing, Appended, Add>(
        appended,
    );
    let mut pen = seen.no_pen();
    let found = head.compare_exchange::<Add, Nothing>(count, count + 1, seen, &mut offer, &mut pen);
    found == count
}
