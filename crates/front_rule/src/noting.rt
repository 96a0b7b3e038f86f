//! Notes and pins are made.
ghost use Rattle.std.specs.Prelude.{◌≡◌, length};
ghost use Rattle.front_rule.specs.Parts.{base_of};
ghost use Rattle.front_rule.specs.Known.{note_of_pen, note_of_pass, note_of_base};

use crate::desk::{Desk, take};
use crate::front_note::FrontNote;
use crate::kinds::Noting;
use crate::leaf_mark::LeafMark;
use crate::pass::Pass;
use crate::pen::Pen;
use crate::pin_mark::PinMark;
use crate::store_name::StoreName;
use std::marker::PhantomData;

/// A note of all that the pen knows.
pub fn note<K: StoreName>(pen: &mut Pen<K>) -> FrontNote<K>
    ensures same { pen.new ≡ pen.old }
    ensures note { result ≡ note_of_pen pen.old }
{
    let desk = &pen.desk;
    desk.step::<Noting>(&mut pen.seat);
    FrontNote {
        badge: desk.cut(&mut pen.seat),
        front: pen.front,
        memtable: pen.memtable,
        of: PhantomData,
    }
}

/// A note of what the pass has seen.
pub fn tell<K: StoreName>(pass: &mut Pass<K>) -> FrontNote<K>
    ensures same { pass.new ≡ pass.old }
    ensures note { result ≡ note_of_pass pass.old }
{
    let mut seat = take(&mut pass.badge);
    pass.desk.step::<Noting>(&mut seat);
    let badge = pass.desk.cut(&mut seat);
    pass.badge = seat.into_badge();
    FrontNote {
        badge,
        front: pass.front,
        memtable: pass.memtable,
        of: PhantomData,
    }
}

/// A note of the list up to the base of the leaf's memtable. All of it is safe.
pub fn base_note<K: StoreName>(desk: &Desk<K>, leaf: &mut LeafMark<K>) -> FrontNote<K>
    ensures same { leaf.new ≡ leaf.old }
    ensures note { result ≡ note_of_base leaf.old }
    ensures base { length result.list ≡ base_of leaf.old.bases }
{
    let mut seat = take(&mut leaf.badge);
    desk.step::<Noting>(&mut seat);
    let badge = desk.cut(&mut seat);
    leaf.badge = seat.into_badge();
    FrontNote {
        badge,
        front: leaf.base,
        memtable: leaf.memtable,
        of: PhantomData,
    }
}

/// The mark of a pin on what the pass has seen.
pub fn pin<K: StoreName>(pass: &mut Pass<K>) -> PinMark<K>
    ensures same { pass.new ≡ pass.old }
    ensures pin { result ≡ note_of_pass pass.old }
{
    PinMark::of(tell(pass))
}
