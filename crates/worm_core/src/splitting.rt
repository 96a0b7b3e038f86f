//! A split of a full leaf.
ghost use Rattle.std.specs.Prelude.{◌≡◌, ◌<◌, ◌≤◌, ℕ, List, length, IfOk, OnOk, OnErr};
ghost use Rattle.meta_trie.specs.Tries.{Anchored};
ghost use Rattle.worm_leaf.specs.Leaves.{LeafState};
ghost use Rattle.worm_core.specs.Events.{SplitsLeaf};
ghost use Rattle.worm_core.specs.Refusals.{OnNoStep};
ghost use Rattle.worm_core.specs.Worlds.{all_anchored};
ghost use Rattle.worm_core.specs.declared.leaf_answer.LeafAnswer.TheVariants.{Done};

use crate::leaf_answer::LeafAnswer;
use crate::limits::LEAVES_MAX;
use crate::refused::Refused;
use crate::split::Split;
use std::alloc::Global;
use worm_leaf::{Anchor, Leaf};

/// Splits the leaf of a number. The new leaf is the last one, and the split is the last one.
pub(crate) fn split_leaf(
    alloc: Global,
    leaves: &mut Vec<Leaf>,
    splits: &mut Vec<Split>,
    number: u32,
) -> Result<LeafAnswer, Refused>
    ensures split { OnOk result (SplitsLeaf leaves.old.items (all_anchored splits.old.items) number
        leaves.new.items (all_anchored splits.new.items)) }
    ensures done { IfOk result (λ answer. answer ≡ Done) }
    ensures none { OnNoStep result ((after : List LeafState) (more : List Anchored)
        → SplitsLeaf leaves.old.items (all_anchored splits.old.items) number after more → ⊥) }
    ensures same_leaves { OnErr result (leaves.new.items ≡ leaves.old.items) }
    ensures same_splits { OnErr result (splits.new.items ≡ splits.old.items) }
{
    let place = number as usize;
    let used = leaves.len();
    if used >= LEAVES_MAX || place >= used || !leaves[place].is_full() {
        return Err(Refused::NoStep);
    }
    let mut right = Leaf::make(alloc)?;
    let mut anchor = Anchor::make(alloc)?;
    leaves.reserve(1)?;
    splits.reserve(1)?;
    // From here on nothing is refused.
    leaves[place].split_into(&mut right, &mut anchor);
    leaves.push_reserved(right);
    splits.push_reserved(Split {
        anchor,
        leaf: used as u32,
    });
    Ok(LeafAnswer::Done)
}
