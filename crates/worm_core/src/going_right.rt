//! A walker that goes to the leaf to the right.
ghost use Rattle.std.specs.Prelude.{◌≡◌, ◌<◌, ◌≤◌, ◌+◌, ◌^◌, ℕ, List, Some, length, IfSome, IfNone};
ghost use Rattle.worm_leaf.specs.Leaves.{LeafState};
ghost use Rattle.worm_core.specs.Events.{GoesRight};
ghost use Rattle.worm_core.specs.Worlds.{IsRightOf, walker_at};
ghost use Rattle.worm_core.specs.declared.limits.TheConstants.{LEAVES_MAX};
ghost use Rattle.worm_core.specs.declared.walker.Walker.{Walker as Seen};

use crate::covering::is_covered;
use crate::standing::standing;
use crate::walker::Walker;
use std::collections::BTreeMap;
use worm_leaf::Leaf;

/// Puts the walker on the leaf that begins where its own ends, which is the answer. None where there is no such step.
pub(crate) fn go_right(
    leaves: &[Leaf],
    walkers: &mut BTreeMap<u32, Walker>,
    number: u32,
) -> Option<u32>
    requires few { length leaves.now ≤ LEAVES_MAX }
    requires walks { (walker : Seen) → walker_at walkers.old.entries number ≡ Some walker
        → walker.rights < LEAVES_MAX }
    ensures right { IfSome result (λ right.
        GoesRight leaves.now walkers.old.entries number right walkers.new.entries) }
    ensures none { IfNone result ((right : ℕ) (after : List (ℕ × Seen))
        → GoesRight leaves.now walkers.old.entries number right after → ⊥) }
    ensures same { IfNone result (walkers.new.entries ≡ walkers.old.entries) }
{
    let (walker, leaf) = standing(leaves, walkers, number)?;
    if is_covered(leaf, &walker.key) {
        return None;
    }
    let right = right_of(leaves, leaf)?;
    let walker = walkers.get_mut(&number).unwrap();
    walker.leaf = right;
    walker.rights += 1;
    Some(right)
}

/// The number of the leaf that begins where this one ends.
fn right_of(leaves: &[Leaf], leaf: &Leaf) -> Option<u32>
    requires { length leaves.now ≤ LEAVES_MAX }
    ensures right { IfSome result (λ right. IsRightOf leaves.now leaf.now right) }
    ensures none { IfNone result ((right : ℕ) → IsRightOf leaves.now leaf.now right → ⊥) }
{
    'leaves: for number in 0..leaves.len() {
        if leaf.meets(&leaves[number]) {
            return Some(number as u32);
        }
    }
    None
}
