//! Where a walker stands.
ghost use Rattle.std.specs.Prelude.{◌≡◌, ℕ, IfSome, IfNone};
ghost use Rattle.worm_leaf.specs.Leaves.{LeafState};
ghost use Rattle.worm_core.specs.Worlds.{Stands};
ghost use Rattle.worm_core.specs.declared.walker.Walker.{Walker as Seen};

use crate::walker::Walker;
use std::collections::BTreeMap;
use worm_leaf::Leaf;

/// The walker of a number and the leaf that it stands on, where there are both.
pub(crate) fn standing<'a>(
    leaves: &'a [Leaf],
    walkers: &'a BTreeMap<u32, Walker>,
    number: u32,
) -> Option<(&'a Walker, &'a Leaf)>
    ensures stands { IfSome result (λ both. Stands leaves.now walkers.now.entries number both.0.now both.1.now) }
    ensures none { IfNone result ((walker : Seen) (leaf : LeafState)
        → Stands leaves.now walkers.now.entries number walker leaf → ⊥) }
{
    let walker = walkers.get(&number)?;
    let leaf = leaves.get(walker.leaf as usize)?;
    Some((walker, leaf))
}
