//! What the log tells: what is safe, and that a device failed.
ghost use Rattle.std.specs.Prelude.{◌≡◌, ◌+◌, ◌-◌, ◌≤◌, length};
ghost use Rattle.front_rule.specs.Known.{pen_settled, pen_failed, pass_failed};

use crate::kinds::{Failing, Settling};
use crate::pass::Pass;
use crate::pen::Pen;
use crate::store_name::StoreName;
use crate::told::TellsNumber;
use std::marker::Brand;

/// The caller says that the log has all entries below `upto` for good. The pen's safe place is then not below
/// `upto`, and not past the list's end.
///
/// Nothing here looks at the log: that the caller's word is true is for the crate that has both the pen and the log.
pub fn settled<K: StoreName>(pen: &mut Pen<K>, upto: u64)
    requires { upto ≤ K.first + length pen.old.list }
    ensures pen { pen.new ≡ pen_settled pen.old (upto - K.first) }
    ensures within { pen.new.safe ≤ length pen.new.list }
{
    settled_told::<K, Brand>(pen, upto);
}

fn settled_told<K: StoreName, E: TellsNumber>(pen: &mut Pen<K>, upto: u64)
    requires told { E.number ≡ upto - K.first }
    requires upto { upto ≤ K.first + length pen.old.list }
    ensures pen { pen.new ≡ pen_settled pen.old (upto - K.first) }
    ensures within { pen.new.safe ≤ length pen.new.list }
{
    let desk = &pen.desk;
    desk.step::<Settling<E>>(&mut pen.seat);
}

/// A device of the log failed, and this pass is told: it is one more failure than all that were told before. So the
/// pass's number rises strictly. That a device failed is the caller's word, too.
pub fn failed<K: StoreName>(pen: &mut Pen<K>, pass: &mut Pass<K>)
    ensures pen { pen.new ≡ pen_failed pen.old (pen.old.failed + 1) }
    ensures pass { pass.new ≡ pass_failed pass.old (pen.old.failed + 1) }
    ensures before { pass.old.told ≤ pen.old.failed }
{
    failed_told::<K, Brand>(pen, pass);
}

fn failed_told<K: StoreName, E: TellsNumber>(pen: &mut Pen<K>, pass: &mut Pass<K>)
    requires told { E.number ≡ pen.old.failed + 1 }
    ensures pen { pen.new ≡ pen_failed pen.old (pen.old.failed + 1) }
    ensures pass { pass.new ≡ pass_failed pass.old (pen.old.failed + 1) }
    ensures before { pass.old.told ≤ pen.old.failed }
{
    let desk = &pen.desk;
    desk.join(&mut pen.seat, &mut pass.badge);
    desk.step::<Failing<E>>(&mut pen.seat);
    pass.badge = desk.cut(&mut pen.seat);
}
