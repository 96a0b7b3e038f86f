//! Memtables end and begin, and leaves are cut in two.
ghost use Rattle.std.specs.Prelude.{◌≡◌, ◌+◌, ◌≤◌, ◌<◌, ◌^◌, true, length};
ghost use mathlib.Core.List.{IsPrefix};
ghost use Rattle.rdb_base.specs.Ranges.{in_range};
ghost use Rattle.front_rule.specs.Parts.{HasAllOf};
ghost use Rattle.front_rule.specs.Known.{GoesOn, pen_frozen, leaf_first, left_of, right_of, end_by, until_end};

use crate::desk::{Desk, take};
use crate::front_note::FrontNote;
use crate::kinds::{Comparing, Cutting};
use crate::leaf_mark::LeafMark;
use crate::pen::Pen;
use crate::store_name::StoreName;
use crate::told::TellsKey;
use rdb_base::Key;
use std::marker::{Brand, PhantomData};

/// The open memtable ends at the answered number, and memtable `next` begins there. The mark is over all its keys.
#[tactic(auto, using(crate::proofs::BaseLemmas::base_of_last))]
pub fn freeze<K: StoreName>(pen: &mut Pen<K>, next: u64) -> (u64, LeafMark<K>)
    requires next { next ≡ pen.old.memtable + 1 }
    requires settled { pen.old.safe ≡ length pen.old.list }
    ensures end { result.0 ≡ K.first + length pen.old.list }
    ensures within { result.0 ≤ 2 ^ 62 }
    ensures pen { pen.new ≡ pen_frozen pen.old }
    ensures leaf { result.1 ≡ leaf_first pen.old }
{
    let desk = &pen.desk;
    let end = desk.freeze(&mut pen.seat);
    let badge = desk.cut(&mut pen.seat);
    pen.memtable = next;
    let leaf = LeafMark {
        badge,
        front: end,
        memtable: next,
        base: end,
        of: PhantomData,
    };
    (end, leaf)
}

/// The leaf keeps the keys of its range below `at`; the answered mark has the others.
pub fn part<K: StoreName>(desk: &Desk<K>, leaf: &mut LeafMark<K>, at: &Key) -> LeafMark<K>
    requires { in_range leaf.old.low leaf.old.high at.now ≡ true }
    ensures left { leaf.new ≡ left_of leaf.old at.now }
    ensures right { result ≡ right_of leaf.old at.now }
{
    part_told::<K, Brand>(desk, leaf, at)
}

fn part_told<K: StoreName, E: TellsKey>(
    desk: &Desk<K>,
    leaf: &mut LeafMark<K>,
    at: &Key,
) -> LeafMark<K>
    requires told { at.now ≡ E.key }
    requires inside { in_range leaf.old.low leaf.old.high at.now ≡ true }
    ensures left { leaf.new ≡ left_of leaf.old at.now }
    ensures right { result ≡ right_of leaf.old at.now }
{
    let mut seat = take(&mut leaf.badge);
    desk.step::<Cutting<E>>(&mut seat);
    let badge = desk.cut(&mut seat);
    leaf.badge = seat.into_badge();
    LeafMark {
        badge,
        front: leaf.front,
        memtable: leaf.memtable,
        base: leaf.base,
        of: PhantomData,
    }
}

/// Shows, by a note of a later memtable, that the leaf's memtable has ended: the leaf has all entries of its range in
/// the note's list up to the end of its memtable, which is the base of the next one.
pub fn ended<K: StoreName>(desk: &Desk<K>, leaf: &mut LeafMark<K>, later: &mut FrontNote<K>)
    requires { leaf.old.memtable < later.old.memtable }
    ensures same { (leaf.new ≡ leaf.old) × (later.new ≡ later.old) }
    ensures all { HasAllOf leaf.old (until_end later.old leaf.old) }
    ensures begins { IsPrefix leaf.old.list (until_end later.old leaf.old) }
    ensures reaches { end_by later.old leaf.old ≤ length later.old.list }
    ensures later { GoesOn leaf.old.memtable leaf.old.bases later.old.memtable later.old.bases }
{
    let mut seat = take(&mut later.badge);
    desk.join(&mut seat, &mut leaf.badge);
    desk.step::<Comparing>(&mut seat);
    leaf.badge = desk.cut(&mut seat);
    later.badge = seat.into_badge();
}
