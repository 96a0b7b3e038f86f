//! A pass ends.
ghost use Rattle.std.specs.Prelude.{◌≡◌, ◌≤◌};
ghost use mathlib.Core.List.{IsPrefix};
ghost use Rattle.rdb_base.specs.Histories.{calls_of};
ghost use Rattle.front_rule.specs.Known.{GoesOn, pen_ended, IsGoing, IsWhole};

use crate::kinds::Ending;
use crate::pass::Pass;
use crate::pen::Pen;
use crate::store_name::StoreName;

/// The pass ends, and the pen keeps its caller's entries. What the pass had seen is a front of the pen's list, its
/// entries there are its own, and it was told of no more failures than the pen has. Its caller had got a pass and
/// had not ended. The list is fair, and has no entry of a caller that never got a pass.
pub fn end<K: StoreName>(pen: &mut Pen<K>, pass: Pass<K>)
    ensures pen { pen.new ≡ pen_ended pen.old pass }
    ensures seen { IsPrefix pass.seen pen.old.list }
    ensures own { calls_of pen.old.list pass.caller ≡ pass.own }
    ensures safe { pass.safe ≤ pen.old.safe }
    ensures told { pass.told ≤ pen.old.failed }
    ensures bases { GoesOn pass.memtable pass.bases pen.old.memtable pen.old.bases }
    ensures going { IsGoing pen.old pass.caller }
    ensures whole { IsWhole pen.new }
{
    let Pass {
        mut badge,
        desk: _,
        caller: _,
        ordinal: _,
        front: _,
        memtable: _,
    } = pass;
    let desk = &pen.desk;
    desk.join(&mut pen.seat, &mut badge);
    desk.step::<Ending>(&mut pen.seat);
}
