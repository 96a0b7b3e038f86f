//! What a walker reads at its leaf.
ghost use Rattle.std.specs.Prelude.{◌≡◌, IfOk};
ghost use Rattle.worm_core.specs.Events.{IsFound};
ghost use Rattle.worm_core.specs.Refusals.{OnNoStep};
ghost use Rattle.worm_core.specs.declared.leaf_answer.LeafAnswer.{LeafAnswer as Told};

use crate::covering::is_covered;
use crate::leaf_answer::LeafAnswer;
use crate::refused::Refused;
use crate::standing::standing;
use crate::walker::Walker;
use std::alloc::Global;
use std::collections::BTreeMap;
use worm_leaf::Leaf;

/// The change at the walker's key in its leaf, and how often the walker went right.
pub(crate) fn answer_at(
    alloc: Global,
    leaves: &[Leaf],
    walkers: &BTreeMap<u32, Walker>,
    number: u32,
) -> Result<LeafAnswer, Refused>
    ensures found { IfOk result (λ answer. IsFound leaves.now walkers.now.entries number answer) }
    ensures none { OnNoStep result ((answer : Told)
        → IsFound leaves.now walkers.now.entries number answer → ⊥) }
{
    let Some((walker, leaf)) = standing(leaves, walkers, number) else {
        return Err(Refused::NoStep);
    };
    if !is_covered(leaf, &walker.key) {
        return Err(Refused::NoStep);
    }
    let change = match leaf.find(&walker.key) {
        Some(change) => Some(change.try_copy(alloc)?),
        None => None,
    };
    Ok(LeafAnswer::Found {
        leaf: walker.leaf,
        change,
        rights: walker.rights,
    })
}
