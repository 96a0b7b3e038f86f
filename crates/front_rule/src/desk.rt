//! A share of the table of the history's word, and the steps that it takes.
ghost use Rattle.std.specs.Prelude.{◌≡◌, ◌++◌, ◌∷◌, [], IfOk};
ghost use Rattle.std.specs.Arc.{arc_value};
ghost use Rattle.front_rule.specs.Steps.{CanAppend, Appends, CanFreeze, Freezes};
ghost use Rattle.front_rule.specs.Marks.{held};
ghost use Rattle.seat_parts.specs.Seats.{but_last, last};

use crate::NoMemory;
use crate::origin::Origin;
use crate::plays::{Append, Freeze, Kind, Last, Of, Together};
use crate::rule::{FrontRule, Parts};
use crate::store_name::StoreName;
use crate::told::TellsEntry;
use atomic_table::{Badge, Seat, Table};
use std::alloc::Global;
use std::marker::PhantomData;
use std::mem::replace;
use std::sync::Arc;

/// The table of a history's word, as it is shared.
pub(crate) type Board = Arc<Table<u8, Parts, Origin, FrontRule, Global>, Global>;

/// A share of the table of the history's word. A pen and a pass hold one. Who has a mark, a note or the keeper is
/// lent one.
///
/// # Threads
///
/// Any thread may use a share at any time: what it does is one load of the word, or one addition to it, at a time.
/// Which values are changed together is what the callers' locks see to.
#[derive(Drop)]
pub struct Desk<K: StoreName> {
    pub(crate) board: Board,
    of: PhantomData<K>,
    ghost table_is: { (arc_value board).shared.table_id ≡ K.table },
    ghost first_is: { (arc_value board).shared.key.first ≡ K.first },
    ghost one_word: { K.table.words ≡ 1 },
}

impl<K: StoreName> Desk<K> {
    /// One more share of the same table.
    pub fn try_copy(&self) -> Result<Desk<K>, NoMemory>
        ensures same { IfOk result (λ desk.
            (arc_value desk.board).shared.table_id ≡ (arc_value self.now.board).shared.table_id
            ) }
    {
        Ok(Desk {
            board: Arc::try_clone(&self.board)?,
            of: PhantomData,
        })
    }

    pub(crate) fn of(board: Board) -> Desk<K>
        requires table { (arc_value board).shared.table_id ≡ K.table }
        requires first { (arc_value board).shared.key.first ≡ K.first }
        requires one_word { K.table.words ≡ 1 }
    {
        Desk {
            board,
            of: PhantomData,
        }
    }

    // The badge's parts are put after the seat's, and the badge is then blank.
    pub(crate) fn join(&self, seat: &mut Seat<u8, Parts>, badge: &mut Badge<Parts>)
        requires seat { (seat.old.table_id ≡ K.table) × (seat.old.me.1 ≡ []) }
        requires badge { (badge.old.table_id ≡ K.table) × (badge.old.views ≡ held badge.old.views ∷ []) }
        ensures table { seat.new.table_id ≡ K.table }
        ensures parts { seat.new.me ≡ (seat.old.me.0 ++ held badge.old.views, []) }
    {
        let other = replace(badge, Badge::blank()).into_seat();
        self.board.shared.join_seat::<Together>(seat, other);
    }

    // The seat's last part goes to a badge.
    pub(crate) fn cut(&self, seat: &mut Seat<u8, Parts>) -> Badge<Parts>
        requires { (seat.old.table_id ≡ K.table) × (seat.old.me.1 ≡ []) }
        ensures table { (seat.new.table_id ≡ K.table) × (result.table_id ≡ K.table) }
        ensures parts { seat.new.me ≡ (but_last seat.old.me.0, []) }
        ensures badge { result.views ≡ last seat.old.me.0 ∷ [] }
    {
        self.board.shared.split_seat::<Last>(seat).into_badge()
    }

    // One more entry: the word rises by one.
    pub(crate) fn append<E: TellsEntry>(&self, seat: &mut Seat<u8, Parts>) -> u64
        requires seat { (seat.old.table_id ≡ K.table) × (seat.old.me.1 ≡ []) }
        requires can { CanAppend K.first E.entry seat.old.me.0 }
        ensures seat { (seat.new.table_id ≡ K.table) × (seat.new.me.1 ≡ []) }
        ensures appends { Appends K.first E.entry seat.old.me.0 result seat.new.me.0 }
    {
        self.board.shared.fetch_add::<Append<K, E>>(seat, 0, 1)
    }

    // The next memtable: the word rises by nothing.
    pub(crate) fn freeze(&self, seat: &mut Seat<u8, Parts>) -> u64
        requires seat { (seat.old.table_id ≡ K.table) × (seat.old.me.1 ≡ []) }
        requires can { CanFreeze K.first seat.old.me.0 }
        ensures seat { (seat.new.table_id ≡ K.table) × (seat.new.me.1 ≡ []) }
        ensures freezes { Freezes K.first seat.old.me.0 result seat.new.me.0 }
    {
        self.board.shared.fetch_add::<Freeze<K>>(seat, 0, 0)
    }

    // A step that loads the word and leaves it.
    pub(crate) fn step<X: Kind>(&self, seat: &mut Seat<u8, Parts>) -> u64
        requires seat { (seat.old.table_id ≡ K.table) × (seat.old.me.1 ≡ []) }
        requires can { X.can K.first seat.old.me.0 }
        ensures seat { (seat.new.table_id ≡ K.table) × (seat.new.me.1 ≡ []) }
        ensures tells { X.tells K.first seat.old.me.0 result seat.new.me.0 }
    {
        X::goes();
        self.board.shared.load::<Of<K, X>>(seat, 0)
    }
}

// The seat of a badge, which is then blank.
pub(crate) fn take(badge: &mut Badge<Parts>) -> Seat<u8, Parts>
    requires { badge.old.views ≡ held badge.old.views ∷ [] }
    ensures table { result.table_id ≡ badge.old.table_id }
    ensures parts { result.me ≡ (held badge.old.views, []) }
{
    replace(badge, Badge::blank()).into_seat()
}
