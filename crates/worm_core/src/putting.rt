//! A put at a walker's leaf.
ghost use Rattle.std.specs.Prelude.{◌≡◌, ◌↔◌, ℕ, List, IsTrue, OnSome, IfNone};
ghost use Rattle.worm_leaf.specs.Leaves.{LeafState};
ghost use Rattle.worm_core.specs.Events.{Puts, HasRoom};

use crate::covering::is_covered;
use crate::standing::standing;
use crate::walker::Walker;
use rdb_base::{Key, Pair};
use std::collections::BTreeMap;
use worm_leaf::Leaf;

/// Sets the pair in the walker's leaf. None where there is no such step.
pub(crate) fn put_pair(
    leaves: &mut [Leaf],
    walkers: &BTreeMap<u32, Walker>,
    number: u32,
    pair: Pair,
) -> Option<()>
    ensures put { OnSome result (Puts leaves.old walkers.now.entries number pair leaves.new) }
    ensures none { IfNone result ((after : List LeafState)
        → Puts leaves.old walkers.now.entries number pair after → ⊥) }
    ensures same { IfNone result (leaves.new ≡ leaves.old) }
{
    let (walker, leaf) = standing(leaves, walkers, number)?;
    if walker.key != pair.key || !is_covered(leaf, &walker.key) || !has_room(leaf, &pair.key) {
        return None;
    }
    let place = walker.leaf as usize;
    let _old = leaves[place].put_reserved(pair);
    Some(())
}

/// Whether a leaf has room for a pair of this key.
fn has_room(leaf: &Leaf, key: &Key) -> bool
    ensures { IsTrue result ↔ HasRoom leaf.now key.now }
{
    !leaf.is_full() || leaf.find(key).is_some()
}
