//! The anchor that a key belongs to.
//!
//! 1. Of the prefixes of the key that have a node, the longest is found by halves over the lengths.
//! 2. Where one of its next bytes is below the key's, the anchor is the greatest that goes on with the greatest such
//!    byte.
//! 3. Else it is the prefix itself, where that is an anchor, or the anchor before the least one that begins with the
//!    prefix.
ghost use Rattle.std.specs.Prelude.{◌≡◌, ◌≤◌, ◌<◌, ◌+◌, ◌^◌, ◌++◌, ◌∷◌, ◌&&◌, [], ℕ};
ghost use Rattle.std.specs.Prelude.{Some, true, false, is_some, length, take};
ghost use Rattle.std.specs.Option.{option_copied};
ghost use Rattle.std.specs.Ordering.{is_le, is_lt};
ghost use Rattle.rdb_base.specs.Halvings.{IsLogarithmic};
ghost use Rattle.rdb_base.specs.Order.{key_cmp};
ghost use Rattle.rdb_base.specs.declared.limits.TheConstants.{KEY_MAX};
ghost use Rattle.meta_trie.specs.Leaves.{all_of, previouses, BeginsWithRoot, rest_of};
ghost use Rattle.meta_trie.specs.Tables.{node_at};
ghost use Rattle.meta_trie.specs.Tries.{Anchored, cover};
ghost use Rattle.meta_trie.specs.Nodes.{TrieStands, Best, NextBelow, Pick};

use crate::leaf_entry::LeafEntry;
use crate::node::Node;
use crate::table::Table;
use rdb_base::{KEY_MAX, Steps, compare_bytes};
use std::sync::ledger::Ledger;

/// The leaf of the greatest anchor that is not above a key.
pub(crate) fn leaf_of<L: Ledger>(
    leaves: &[LeafEntry],
    table: &Table,
    key: &[u8],
    steps: &mut Steps<L>,
) -> u32
    requires stands { TrieStands (all_of leaves.now) (previouses leaves.now) (node_at table.now) }
    requires root { BeginsWithRoot (all_of leaves.now) }
    ensures cover { result ≡ cover (rest_of (all_of leaves.now)) key.now }
    ensures counted { steps.old < steps.new }
    ensures cost { IsLogarithmic (length key.now) (steps.old + 2) steps.new }
{
    let at = holder(leaves, table, key, steps);
    leaves[at].leaf
}

/// Whether the greatest anchor that is not above a string is that string.
pub(crate) fn is_anchor_at(leaves: &[LeafEntry], at: usize, string: &[u8]) -> bool
    requires best { (a : Anchored) × Best (all_of leaves.now) string.now at a }
    ensures there { result ≡ true → (j : ℕ) × (b : Anchored) × Pick (all_of leaves.now) j b × (b.anchor ≡ string.now) }
    ensures new { result ≡ false → (j : ℕ) (b : Anchored) → Pick (all_of leaves.now) j b → b.anchor ≡ string.now → ⊥ }
{
    leaves[at].anchor.as_slice() == string
}

/// The place of the greatest anchor that is not above a key.
pub(crate) fn holder<L: Ledger>(
    leaves: &[LeafEntry],
    table: &Table,
    key: &[u8],
    steps: &mut Steps<L>,
) -> usize
    requires stands { TrieStands (all_of leaves.now) (previouses leaves.now) (node_at table.now) }
    requires root { BeginsWithRoot (all_of leaves.now) }
    ensures best { (a : Anchored) × Best (all_of leaves.now) key.now result a }
    ensures counted { steps.old < steps.new }
    ensures cost { IsLogarithmic (length key.now) (steps.old + 2) steps.new }
{
    let len = longest(table, key, steps);
    let (front, rest) = key.split_at(len);
    let Some(node) = read(table, front, steps) else {
        return 0;
    };
    match next_below(node, rest) {
        Some(byte) => in_branch(leaves, table, key, front, byte, steps),
        None => {
            if node.own {
                node.least
            } else {
                leaves[node.least].previous
            }
        }
    }
}

/// The place of the greatest anchor that is not above a key, where that goes on from a front of the key with this byte.
fn in_branch<L: Ledger>(
    leaves: &[LeafEntry],
    table: &Table,
    key: &[u8],
    front: &[u8],
    byte: u8,
    steps: &mut Steps<L>,
) -> usize
    requires root { BeginsWithRoot (all_of leaves.now) }
    requires there { is_some (node_at table.now (front.now ++ byte ∷ [])) ≡ true }
    requires child { (m : _) → node_at table.now (front.now ++ byte ∷ []) ≡ Some m
        → (a : Anchored) × Best (all_of leaves.now) key.now m.greatest a }
    ensures best { (a : Anchored) × Best (all_of leaves.now) key.now result a }
    ensures rises { steps.old ≤ steps.new }
    ensures cost { steps.new ≤ steps.old + 1 }
{
    // An anchor that is longer than any key is never made of a key, and `child` has no memory for it.
    if front.len() >= KEY_MAX {
        return among_all(leaves, key);
    }
    match child(table, front, byte, steps) {
        Some(child) => child.greatest,
        None => 0,
    }
}

/// The place of the greatest anchor that is not above a key, by a look at each.
fn among_all(leaves: &[LeafEntry], key: &[u8]) -> usize
    requires root { BeginsWithRoot (all_of leaves.now) }
    ensures best { (a : Anchored) × Best (all_of leaves.now) key.now result a }
{
    let mut best = 0;
    'anchors: for place in 0..leaves.len() {
        let anchor = leaves[place].anchor.as_slice();
        if is_better(key, leaves[best].anchor.as_slice(), anchor) {
            best = place;
        }
    }
    best
}

/// Whether the next anchor is not above the key, and above the best one so far.
fn is_better(key: &[u8], best: &[u8], next: &[u8]) -> bool
    ensures { result ≡ is_le (key_cmp next.now key.now) && is_lt (key_cmp best.now next.now) }
{
    compare_bytes(next, key).is_le() && compare_bytes(best, next).is_lt()
}

/// The length of the longest prefix of a key that has a node.
pub(crate) fn longest<L: Ledger>(table: &Table, key: &[u8], steps: &mut Steps<L>) -> usize
    requires first { is_some (node_at table.now []) ≡ true }
    requires closed { (m n : ℕ) → m ≤ n → is_some (node_at table.now (take n key.now)) ≡ true
        → is_some (node_at table.now (take m key.now)) ≡ true }
    ensures within { result ≤ length key.now }
    ensures there { is_some (node_at table.now (take result key.now)) ≡ true }
    ensures longest { (n : ℕ) → result < n → n ≤ length key.now → is_some (node_at table.now (take n key.now)) ≡ false }
    ensures counted { steps.old ≤ steps.new }
    ensures cost { IsLogarithmic (length key.now) steps.old steps.new }
{
    let mut low = 0;
    let mut high = key.len();
    'halves: while low < high {
        let middle = high - (high - low) / 2;
        let (front, _) = key.split_at(middle);
        if has_node(table, front, steps) {
            low = middle;
        } else {
            high = middle - 1;
        }
    }
    low
}

/// Whether a prefix has a node. It is one step.
fn has_node<L: Ledger>(table: &Table, prefix: &[u8], steps: &mut Steps<L>) -> bool
    ensures answer { result ≡ is_some (node_at table.now prefix.now) }
    ensures cost { steps.new ≡ steps.old + 1 }
{
    read(table, prefix, steps).is_some()
}

/// The node of a prefix. It is one step.
fn read<'a, L: Ledger>(table: &'a Table, prefix: &[u8], steps: &mut Steps<L>) -> Option<&'a Node>
    ensures node { option_copied result ≡ node_at table.now prefix.now }
    ensures cost { steps.new ≡ steps.old + 1 }
{
    steps.tick();
    table.node(prefix)
}

/// The node of a prefix with one byte more. It is one step.
fn child<'a, L: Ledger>(
    table: &'a Table,
    prefix: &[u8],
    byte: u8,
    steps: &mut Steps<L>,
) -> Option<&'a Node>
    requires room { length prefix.now < KEY_MAX }
    ensures node { option_copied result ≡ node_at table.now (prefix.now ++ byte ∷ []) }
    ensures cost { steps.new ≡ steps.old + 1 }
{
    let mut bytes = [0; KEY_MAX];
    let len = prefix.len();
    bytes[..len].copy_from_slice(prefix);
    bytes[len] = byte;
    read(table, &bytes[..len + 1], steps)
}

/// The greatest byte that comes next in an anchor and is below the next byte of the key.
fn next_below(node: &Node, rest: &[u8]) -> Option<u8>
    ensures { NextBelow node.now rest.now result }
{
    match rest.first() {
        None => None,
        Some(next) => node.nexts.below(*next),
    }
}
