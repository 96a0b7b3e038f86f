//! A pass sees more.
ghost use Rattle.std.specs.Prelude.{◌≡◌, ◌+◌, ◌≤◌, ◌^◌, length};
ghost use mathlib.Core.List.{IsPrefix};
ghost use Rattle.rdb_base.specs.Histories.{calls_of};
ghost use Rattle.front_rule.specs.Parts.{HasAllOf};
ghost use Rattle.front_rule.specs.Known.{GoesOn, learnt, note_of_pass, note_of_leaf, pass_caught};

use crate::desk::take;
use crate::front_note::FrontNote;
use crate::kinds::{Catching, Learning, Looking};
use crate::leaf_mark::LeafMark;
use crate::noting::tell;
use crate::pass::Pass;
use crate::pen::Pen;
use crate::store_name::StoreName;
use std::cmp::max;

/// The pass takes in a note: it has then seen the longer of both lists, and has the greater safe place.
pub fn learn<K: StoreName>(pass: &mut Pass<K>, note: FrontNote<K>)
    ensures pass { pass.new ≡ learnt pass.old note }
    ensures forward { IsPrefix pass.old.seen pass.new.seen }
    ensures noted { IsPrefix note.list pass.new.seen }
    ensures bases { GoesOn pass.old.memtable pass.old.bases pass.new.memtable pass.new.bases }
    ensures noted_bases { GoesOn note.memtable note.bases pass.new.memtable pass.new.bases }
{
    let FrontNote {
        mut badge,
        front,
        memtable,
        of: _,
    } = note;
    let mut seat = take(&mut pass.badge);
    pass.desk.join(&mut seat, &mut badge);
    pass.desk.step::<Learning>(&mut seat);
    pass.badge = seat.into_badge();
    pass.front = max(pass.front, front);
    pass.memtable = max(pass.memtable, memtable);
}

/// Both passes have then seen the longer of what the two had seen, and have the greater safe place.
pub fn meet<K: StoreName>(a: &mut Pass<K>, b: &mut Pass<K>)
    ensures second { b.new ≡ learnt b.old (note_of_pass a.old) }
    ensures first { a.new ≡ learnt a.old (note_of_pass b.new) }
    ensures same { a.new.seen ≡ b.new.seen }
    ensures first_forward { IsPrefix a.old.seen a.new.seen }
    ensures second_forward { IsPrefix b.old.seen b.new.seen }
    ensures first_bases { GoesOn a.old.memtable a.old.bases a.new.memtable a.new.bases }
    ensures second_bases { GoesOn b.old.memtable b.old.bases b.new.memtable b.new.bases }
{
    learn(b, tell(a));
    learn(a, tell(b));
}

/// The pass sees what the leaf has seen; the answer is the number after the last entry's that it has then seen. Unless
/// the pass knew of a later memtable, the leaf has all entries of its range that the pass has then seen.
pub fn look<K: StoreName>(leaf: &mut LeafMark<K>, pass: &mut Pass<K>) -> u64
    ensures leaf { leaf.new ≡ leaf.old }
    ensures pass { pass.new ≡ learnt pass.old (note_of_leaf leaf.old) }
    ensures front { result ≡ K.first + length pass.new.seen }
    ensures within { result ≤ 2 ^ 62 }
    ensures forward { IsPrefix pass.old.seen pass.new.seen }
    ensures seen { IsPrefix leaf.old.list pass.new.seen }
    ensures bases { GoesOn pass.old.memtable pass.old.bases pass.new.memtable pass.new.bases }
    ensures seen_bases { GoesOn leaf.old.memtable leaf.old.bases pass.new.memtable pass.new.bases }
    ensures all { pass.old.memtable ≤ leaf.old.memtable → HasAllOf leaf.old pass.new.seen }
{
    let mut seat = take(&mut pass.badge);
    pass.desk.join(&mut seat, &mut leaf.badge);
    pass.desk.step::<Looking>(&mut seat);
    leaf.badge = pass.desk.cut(&mut seat);
    pass.badge = seat.into_badge();
    pass.front = max(pass.front, leaf.front);
    pass.memtable = max(pass.memtable, leaf.memtable);
    pass.front
}

/// The pass sees all that the pen knows, and has its safe place; the answer is the number after the last entry's.
pub fn catch_up<K: StoreName>(pen: &mut Pen<K>, pass: &mut Pass<K>) -> u64
    ensures pen { pen.new ≡ pen.old }
    ensures pass { pass.new ≡ pass_caught pass.old pen.old }
    ensures front { result ≡ K.first + length pen.old.list }
    ensures within { result ≤ 2 ^ 62 }
    ensures forward { IsPrefix pass.old.seen pen.old.list }
    ensures own { calls_of pen.old.list pass.old.caller ≡ pass.old.own }
    ensures safe { pass.old.safe ≤ pen.old.safe }
    ensures bases { GoesOn pass.old.memtable pass.old.bases pen.old.memtable pen.old.bases }
{
    let desk = &pen.desk;
    desk.join(&mut pen.seat, &mut pass.badge);
    desk.step::<Catching>(&mut pen.seat);
    pass.badge = desk.cut(&mut pen.seat);
    pass.front = pen.front;
    pass.memtable = pen.memtable;
    pen.front
}
