//! An entry is appended.
ghost use Rattle.std.specs.Prelude.{◌≡◌, ◌+◌, ◌<◌, ◌^◌, ◌++◌, ◌∷◌, [], true, length, IfOk, OnOk, IfErr, OnErr};
ghost use mathlib.Core.List.{IsPrefix};
ghost use Rattle.rdb_base.specs.Ranges.{in_range};
ghost use Rattle.rdb_base.specs.Histories.{calls_of};
ghost use Rattle.front_rule.specs.Parts.{entries_in};
ghost use Rattle.front_rule.specs.Known.{GoesOn, pen_with, leaf_after, pass_with, learnt, note_of_pen};
ghost use Rattle.front_rule.specs.Steps.{three, CanAppend, Appends};

use crate::leaf_mark::LeafMark;
use crate::learning::learn;
use crate::noting::note;
use crate::pass::Pass;
use crate::pen::Pen;
use crate::store_name::StoreName;
use crate::told::TellsEntry;
use rdb_base::{Entry, NUMBER_MAX};
use std::marker::Brand;
use thiserror::Error;

/// The history has no number left. It comes exactly where the next entry's number would be 2^62.
#[derive(Clone, Copy, Debug, PartialEq, Eq, Error)]
#[error("no number is left at {number}")]
pub struct HistorySpent {
    pub number: u64,
}

/// Appends the entry, and answers its number. Pen, leaf and pass have then seen it, and all before it.
///
/// If no number is left, the pass has then seen all that there is, and nothing else changes.
pub fn append<K: StoreName>(
    pen: &mut Pen<K>,
    leaf: &mut LeafMark<K>,
    pass: &mut Pass<K>,
    entry: &Entry,
) -> Result<u64, HistorySpent>
    requires caller { entry.now.caller ≡ pass.old.caller }
    requires ordinal { entry.now.ordinal ≡ length pass.old.own }
    requires range { in_range leaf.old.low leaf.old.high entry.now.key ≡ true }
    requires open { leaf.old.memtable ≡ pen.old.memtable }
    ensures number { IfOk result (λ n. n ≡ K.first + length pen.old.list) }
    ensures below { IfOk result (λ n. n < 2 ^ 62) }
    ensures pen { OnOk result (pen.new ≡ pen_with pen.old entry.now) }
    ensures leaf { OnOk result (leaf.new ≡ leaf_after leaf.old (pen.old.list ++ entry.now ∷ [])) }
    ensures pass { OnOk result (pass.new ≡ pass_with pass.old pen.old entry.now) }
    ensures own { OnOk result (calls_of pen.new.list pass.old.caller ≡ pass.new.own) }
    ensures upto { OnOk result (IsPrefix pass.old.seen pen.old.list) }
    ensures begins { OnOk result (IsPrefix leaf.old.list pen.old.list) }
    ensures range { OnOk result (
        entries_in leaf.old leaf.new.list ≡ entries_in leaf.old leaf.old.list ++ entry.now ∷ []
        ) }
    ensures open_bases { OnOk result (leaf.old.bases ≡ pen.old.bases) }
    ensures forward { IsPrefix pass.old.seen pass.new.seen }
    ensures pass_bases { GoesOn pass.old.memtable pass.old.bases pass.new.memtable pass.new.bases }
    ensures spent { IfErr result (λ e. (e.number ≡ 2 ^ 62) × (K.first + length pen.old.list ≡ 2 ^ 62)) }
    ensures kept { OnErr result ((pen.new ≡ pen.old) × (leaf.new ≡ leaf.old)) }
    ensures learnt { OnErr result (pass.new ≡ learnt pass.old (note_of_pen pen.old)) }
    ensures all { OnErr result (IsPrefix pen.old.list pass.new.seen) }
{
    if pen.front >= NUMBER_MAX {
        learn(pass, note(pen));
        return Err(HistorySpent { number: NUMBER_MAX });
    }
    Ok(append_told::<K, Brand>(pen, leaf, pass, entry))
}

// The same below the end of the numbers, told of the entry: joins leaf and pass to the pen, takes the step, cuts them
// off.
fn append_told<K: StoreName, E: TellsEntry>(
    pen: &mut Pen<K>,
    leaf: &mut LeafMark<K>,
    pass: &mut Pass<K>,
    entry: &Entry,
) -> u64
    requires told { entry.now ≡ E.entry }
    requires can { CanAppend K.first E.entry (three pen.old leaf.old pass.old) }
    ensures added { Appends K.first E.entry (three pen.old leaf.old pass.old) result (three pen.new leaf.new pass.new) }
{
    let desk = &pen.desk;
    desk.join(&mut pen.seat, &mut leaf.badge);
    desk.join(&mut pen.seat, &mut pass.badge);
    let number = desk.append::<E>(&mut pen.seat);
    pass.badge = desk.cut(&mut pen.seat);
    leaf.badge = desk.cut(&mut pen.seat);

    pen.front = number + 1;
    leaf.front = number + 1;
    pass.front = number + 1;
    pass.ordinal += 1;
    pass.memtable = pen.memtable;
    number
}
