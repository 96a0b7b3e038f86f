ghost use Rattle.std.specs.Prelude.{◌≡◌, ◌≢◌, ◌≤◌, ◌<◌, ◌+◌, ◌-◌, ◌++◌, ◌∷◌, ◌==◌, [], ℕ, Some, None, true, IfOk, OnErr, OnOk, IsErrOf};
ghost use Rattle.std.specs.Prelude.{position, length, slice_set, vec_len, vec_capacity};
ghost use Rattle.std.specs.List.{AllByRecursion, insert};
ghost use Rattle.std.specs.declared.cmp.Ordering.TheVariants.{Less};
ghost use Rattle.rdb_base.specs.Halvings.{IsLogarithmic};
ghost use Rattle.rdb_base.specs.Order.{key_cmp};
ghost use Rattle.worm_leaf.specs.Anchors.{PartsAt};
ghost use Rattle.worm_leaf.specs.Leaves.{unused, covers};
ghost use Rattle.worm_leaf.specs.declared.limits.TheConstants.{LEAF_PAIRS_MAX, LEAF_PAIRS_KEPT};
ghost use Rattle.meta_trie.specs.Tries.{nodes_of, nodes_for};
ghost use Rattle.meta_trie.specs.declared.limits.TheConstants.{NODES_MAX};
ghost use Rattle.leaf_table.specs.Chains.{pairs_of, HasRoomAt};
ghost use Rattle.leaf_table.specs.Splits.{SplitsAt, IsFullAt, left_half, right_half};
ghost use Rattle.leaf_table.specs.Tables.{leaf_at};

use crate::finding::number_of;
use crate::leaf_table::LeafTable;
use crate::limits::LEAVES_MAX;
use crate::split_error::SplitError;
use meta_trie::MetaTrie;
use rdb_base::{Key, NoMemory, Steps};
use std::alloc::Global;
use std::sync::ledger::Ledger;
use worm_leaf::{Anchor, Leaf};

impl LeafTable {
    /// Splits the full leaf that covers a key. All that may be refused comes before the first change: the trie's room
    /// for the anchor, and the leaf for the right half. Refused, nothing changes.
    pub fn split_at<L: Ledger>(
        &mut self,
        alloc: Global,
        key: &Key,
        steps: &mut Steps<L>,
    ) -> Result<(), SplitError>
        requires full { HasRoomAt self.old key.now → ⊥ }
        ensures pairs { pairs_of self.new ≡ pairs_of self.old }
        ensures halves { OnOk result (SplitsAt self.old key.now self.new) }
        ensures one { OnOk result (length self.new ≡ length self.old + 1) }
        ensures room { OnOk result (HasRoomAt self.new key.now) }
        ensures refused { OnErr result (self.new ≡ self.old) }
        ensures full { IsErrOf result SplitError.Full → IsFullAt self.old key.now }
        ensures memory { IsErrOf result SplitError.Memory → length self.old < LEAVES_MAX }
        ensures cost { IsLogarithmic (length key.now) (steps.old + 3) steps.new }
    {
        let number = number_of(self.leaves.as_slice(), &self.trie, self.recent, key, steps);
        let new = self.leaves.len();
        if new == LEAVES_MAX {
            return Err(SplitError::Full);
        }
        let right = prepare(
            alloc,
            &self.leaves[number as usize],
            &mut self.anchor,
            &mut self.trie,
            &mut self.spare,
        )?;
        self.trie
            .add(alloc, self.anchor.as_bytes(), new as u32, number)
            .unwrap();
        halve(&mut self.leaves, number as usize, right, &mut self.anchor);
        insert_after(&mut self.order, number, new as u32);
        Ok(())
    }
}

/// Makes all that the split of a full leaf needs: its anchor, the trie's room for that, and an unused leaf.
fn prepare(
    alloc: Global,
    leaf: &Leaf,
    anchor: &mut Anchor,
    trie: &mut MetaTrie,
    spare: &mut Vec<Leaf>,
) -> Result<Leaf, SplitError>
    requires full { length leaf.now.pairs ≡ LEAF_PAIRS_MAX }
    requires unused { AllByRecursion (λ leaf. leaf ≡ unused) spare.old.items }
    ensures leaf { IfOk result (λ leaf. leaf ≡ unused) }
    ensures anchor { PartsAt leaf.now.pairs LEAF_PAIRS_KEPT anchor.new }
    ensures inside { (key_cmp leaf.now.low anchor.new ≡ Less) × (covers leaf.now anchor.new ≡ true) }
    ensures added { trie.new.added ≡ trie.old.added }
    ensures ready { OnOk result (trie.new.ready ≡ Some anchor.new) }
    ensures nodes { IsErrOf result SplitError.Full
        → NODES_MAX < nodes_of trie.old.added + nodes_for trie.old.added anchor.new }
    ensures unused { AllByRecursion (λ leaf. leaf ≡ unused) spare.new.items }
    ensures fewer { vec_len spare.new ≤ vec_len spare.old }
    ensures one { OnOk result (vec_len spare.new ≡ vec_len spare.old - 1) }
    ensures capacity { vec_capacity spare.new ≡ vec_capacity spare.old }
{
    leaf.split_anchor(anchor);
    trie.reserve(alloc, anchor.as_bytes())?;
    Ok(unused_of(alloc, spare)?)
}

/// An unused leaf: one that was used before, where there is one.
fn unused_of(alloc: Global, spare: &mut Vec<Leaf>) -> Result<Leaf, NoMemory>
    requires unused { AllByRecursion (λ leaf. leaf ≡ unused) spare.old.items }
    ensures leaf { IfOk result (λ leaf. leaf ≡ unused) }
    ensures unused { AllByRecursion (λ leaf. leaf ≡ unused) spare.new.items }
    ensures fewer { vec_len spare.new ≤ vec_len spare.old }
    ensures one { OnOk result (vec_len spare.new ≡ vec_len spare.old - 1) }
    ensures capacity { vec_capacity spare.new ≡ vec_capacity spare.old }
{
    match spare.pop() {
        Some(leaf) => Ok(leaf),
        None => Leaf::make(alloc),
    }
}

/// Splits the full leaf at a place, whose anchor is known. The right half is the new last leaf.
fn halve(leaves: &mut Vec<Leaf>, place: usize, mut right: Leaf, anchor: &mut Anchor)
    requires within { place < vec_len leaves.old }
    requires full { length (leaf_at leaves.old.items place).pairs ≡ LEAF_PAIRS_MAX }
    requires unused { right ≡ unused }
    requires anchor { PartsAt (leaf_at leaves.old.items place).pairs LEAF_PAIRS_KEPT anchor.old }
    requires room { vec_len leaves.old < vec_capacity leaves.old }
    ensures halves { leaves.new.items
        ≡ slice_set leaves.old.items place (left_half (leaf_at leaves.old.items place) anchor.old)
        ++ right_half (leaf_at leaves.old.items place) anchor.old ∷ [] }
    ensures capacity { vec_capacity leaves.new ≡ vec_capacity leaves.old }
{
    leaves[place].split_into(&mut right, anchor);
    leaves.push_reserved(right);
}

/// Inserts a number after another, which is there. There is room.
fn insert_after(order: &mut Vec<u32>, number: u32, new: u32)
    requires there { position (λ other. other == number) order.old.items ≢ None }
    requires room { vec_len order.old < vec_capacity order.old }
    ensures inserted { (place : ℕ) → position (λ other. other == number) order.old.items ≡ Some place
        → order.new.items ≡ insert order.old.items (place + 1) new }
    ensures capacity { vec_capacity order.new ≡ vec_capacity order.old }
{
    let place = place_of(order.as_slice(), number).unwrap();
    order.insert(place + 1, new).unwrap();
}

/// Where a number stands first.
fn place_of(order: &[u32], number: u32) -> Option<usize>
    ensures { result ≡ position (λ other. other == number) order.now }
{
    order.iter().position(|other| *other == number)
}
