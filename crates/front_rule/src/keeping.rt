//! The live and the next number: who keeps them, and who is told.
ghost use Rattle.std.specs.Prelude.{◌≡◌, ◌≤◌};
ghost use Rattle.front_rule.specs.Known.{kept, pen_released, next_learnt};

use crate::desk::{Desk, take};
use crate::keeper::Keeper;
use crate::kinds::{Keeping, Meeting, Taking};
use crate::live_note::LiveNote;
use crate::pass::Pass;
use crate::pen::Pen;
use crate::store_name::StoreName;
use crate::told::TellsNumbers;
use std::marker::{Brand, PhantomData};

/// The keeper's numbers are then these, and the answered note's.
pub fn keep<K: StoreName>(
    keeper: &mut Keeper<K>,
    desk: &Desk<K>,
    live: u64,
    next: u64,
) -> LiveNote<K>
    requires live { keeper.old.live ≤ live }
    requires next { keeper.old.next ≤ next }
    ensures keeper { keeper.new ≡ kept keeper.old live next }
    ensures note { result ≡ keeper.new }
{
    keep_told::<K, Brand>(keeper, desk, live, next)
}

fn keep_told<K: StoreName, E: TellsNumbers>(
    keeper: &mut Keeper<K>,
    desk: &Desk<K>,
    live: u64,
    next: u64,
) -> LiveNote<K>
    requires told { E.numbers ≡ kept keeper.old live next }
    requires up { (keeper.old.live ≤ live) × (keeper.old.next ≤ next) }
    ensures keeper { keeper.new ≡ E.numbers }
    ensures note { result ≡ E.numbers }
{
    let mut seat = take(&mut keeper.badge);
    desk.step::<Keeping<E>>(&mut seat);
    let badge = desk.cut(&mut seat);
    keeper.badge = seat.into_badge();
    LiveNote {
        badge,
        live,
        next,
        of: PhantomData,
    }
}

/// The pen's live number is then the greater of both.
pub fn release_mark<K: StoreName>(pen: &mut Pen<K>, note: LiveNote<K>)
    ensures { pen.new ≡ pen_released pen.old note }
{
    let LiveNote {
        mut badge,
        live: _,
        next: _,
        of: _,
    } = note;
    let desk = &pen.desk;
    desk.join(&mut pen.seat, &mut badge);
    desk.step::<Taking>(&mut pen.seat);
}

/// The pass's next number is then the greater of both.
pub fn learn_next<K: StoreName>(pass: &mut Pass<K>, note: LiveNote<K>)
    ensures { pass.new ≡ next_learnt pass.old note }
{
    let LiveNote {
        mut badge,
        live: _,
        next: _,
        of: _,
    } = note;
    let mut seat = take(&mut pass.badge);
    pass.desk.join(&mut seat, &mut badge);
    pass.desk.step::<Taking>(&mut seat);
    pass.badge = seat.into_badge();
}

/// Shows that the pen's numbers are not above the keeper's.
pub fn live_meet<K: StoreName>(pen: &mut Pen<K>, keeper: &mut Keeper<K>)
    ensures same { (pen.new ≡ pen.old) × (keeper.new ≡ keeper.old) }
    ensures live { pen.old.live ≤ keeper.old.live }
    ensures next { pen.old.next ≤ keeper.old.next }
{
    let desk = &pen.desk;
    desk.join(&mut pen.seat, &mut keeper.badge);
    desk.step::<Meeting>(&mut pen.seat);
    keeper.badge = desk.cut(&mut pen.seat);
}
