//! One more anchor. All that it needs is there, so nothing is refused.
//!
//! 1. The nodes of its prefixes that have one learn of it; its other prefixes get nodes.
//! 2. It goes into the list of anchors, between its neighbours in the order of keys.
ghost use Rattle.std.specs.Prelude.{◌≡◌, ◌≤◌, ◌<◌, ◌+◌, ◌-◌, ◌++◌, ◌∷◌, [], ℕ, Option, Some, None, is_some, true};
ghost use Rattle.std.specs.Prelude.{length, map, take, vec_len, vec_capacity, slice_set};
ghost use Rattle.std.specs.Ordering.{is_lt};
ghost use Rattle.rdb_base.specs.Order.{key_cmp};
ghost use Rattle.meta_trie.specs.Growths.{first_of, fronts_of, GrownAt, BegunAt, KeepsBut};
ghost use Rattle.meta_trie.specs.Nodes.{NodeStands, Pick};
ghost use Rattle.meta_trie.specs.Readiness.{IsTrie, IsReady};
ghost use Rattle.meta_trie.specs.Leaves.{all_of, previouses, nexts, next_at, previouses_with, nexts_with};
ghost use Rattle.meta_trie.specs.Tables.{node_at, count_of, room_of};
ghost use Rattle.meta_trie.specs.Tries.{Anchored};

use crate::leaf_entry::LeafEntry;
use crate::node::Node;
use crate::ready::Ready;
use crate::table::Table;

/// The anchor is added.
pub(crate) fn enter(leaves: &mut Vec<LeafEntry>, table: &mut Table, ready: Ready, leaf: u32)
    requires trie { IsTrie leaves.old.items table.old }
    requires ready { IsReady leaves.old.items table.old ready }
    requires fresh { (j : ℕ) (b : _) → Pick (all_of leaves.old.items) j b → b.anchor ≡ ready.anchor.items → ⊥ }
    requires room { vec_len leaves.old < vec_capacity leaves.old }
    ensures added { all_of leaves.new.items
        ≡ all_of leaves.old.items ++ record { anchor = ready.anchor.items; leaf = leaf } ∷ [] }
    ensures trie { IsTrie leaves.new.items table.new }
{
    let Ready {
        anchor,
        len,
        previous,
        prefixes,
    } = ready;
    let place = leaves.len();
    grow_all(table, leaves.as_slice(), anchor.as_slice(), len, place);
    begin_all(table, anchor.as_slice(), len, place, prefixes);
    link_in(leaves, anchor, leaf, previous);
}

/// The nodes of the prefixes of the new anchor that have one.
fn grow_all(table: &mut Table, leaves: &[LeafEntry], anchor: &[u8], len: usize, place: usize)
    requires within { len ≤ length anchor.now }
    requires there { (n : ℕ) → n ≤ len → is_some (node_at table.old (take n anchor.now)) ≡ true }
    requires stands { (p : _) (n : _) → node_at table.old p ≡ Some n → NodeStands (all_of leaves.now) p n }
    requires next { place ≡ length leaves.now }
    ensures grown { (n : ℕ) → n ≤ len → GrownAt (all_of leaves.now) anchor.now n table.new }
    ensures others { (p : _) → ((n : ℕ) → n ≤ len → p ≡ take n anchor.now → ⊥)
        → node_at table.new p ≡ node_at table.old p }
    ensures count { count_of table.new ≡ count_of table.old }
    ensures room { room_of table.old ≤ room_of table.new }
{
    'fronts: for n in 0..len + 1 {
        grow_at(table, leaves, anchor, n, place);
    }
}

/// The node of a prefix of the new anchor that has one.
fn grow_at(table: &mut Table, leaves: &[LeafEntry], anchor: &[u8], len: usize, place: usize)
    requires within { len ≤ length anchor.now }
    requires there { is_some (node_at table.old (take len anchor.now)) ≡ true }
    requires stands { (n : _) → node_at table.old (take len anchor.now) ≡ Some n
        → NodeStands (all_of leaves.now) (take len anchor.now) n }
    requires next { place ≡ length leaves.now }
    ensures grown { GrownAt (all_of leaves.now) anchor.now len table.new }
    ensures others { KeepsBut (take len anchor.now) table.old table.new }
    ensures count { count_of table.new ≡ count_of table.old }
    ensures room { room_of table.old ≤ room_of table.new }
{
    let (front, rest) = anchor.split_at(len);
    let next = first_byte(rest);
    let Some(node) = table.node(front) else {
        return;
    };
    let node = *node;
    let less = is_below(anchor, leaves[node.least].anchor.as_slice());
    let more = is_below(leaves[node.greatest].anchor.as_slice(), anchor);
    table.replace(front, node.grown(place, next, less, more));
}

/// Nodes for the prefixes of the new anchor that have none, the longest first.
fn begin_all(table: &mut Table, anchor: &[u8], len: usize, place: usize, mut prefixes: Vec<Vec<u8>>)
    requires within { len ≤ length anchor.now }
    requires made { map (λ v. v.items) prefixes.items ≡ fronts_of anchor.now len (length anchor.now - len) }
    requires absent { (n : ℕ) → len < n → n ≤ length anchor.now → node_at table.old (take n anchor.now) ≡ None }
    requires room { length anchor.now - len ≤ room_of table.old }
    ensures begun { (n : ℕ) → len < n → n ≤ length anchor.now → BegunAt anchor.now n place table.new }
    ensures others { (p : _) → ((n : ℕ) → len < n → n ≤ length anchor.now → p ≡ take n anchor.now → ⊥)
        → node_at table.new p ≡ node_at table.old p }
    ensures count { count_of table.new ≡ count_of table.old + (length anchor.now - len) }
{
    let mut left = anchor.len() - len;
    'fronts: while left > 0 {
        let Some(prefix) = prefixes.pop() else {
            return;
        };
        begin_at(table, anchor, len + left, place, prefix);
        left -= 1;
    }
}

/// A node for a prefix of the new anchor that has none.
fn begin_at(table: &mut Table, anchor: &[u8], len: usize, place: usize, prefix: Vec<u8>)
    requires within { len ≤ length anchor.now }
    requires made { prefix.items ≡ take len anchor.now }
    requires absent { node_at table.old (take len anchor.now) ≡ None }
    requires room { 0 < room_of table.old }
    ensures begun { BegunAt anchor.now len place table.new }
    ensures others { KeepsBut (take len anchor.now) table.old table.new }
    ensures count { count_of table.new ≡ count_of table.old + 1 }
    ensures room { room_of table.old ≤ room_of table.new + 1 }
{
    let (_, rest) = anchor.split_at(len);
    let node = Node::begin(place, first_byte(rest));
    table.insert(prefix, node);
}

/// The first byte, where there is one.
fn first_byte(bytes: &[u8]) -> Option<u8>
    ensures { result ≡ first_of bytes.now }
{
    match bytes.first() {
        None => None,
        Some(byte) => Some(*byte),
    }
}

/// Whether a string is below another.
fn is_below(left: &[u8], right: &[u8]) -> bool
    ensures { result ≡ is_lt (key_cmp left.now right.now) }
{
    left.cmp(right).is_lt()
}

/// One entry more, between the previous one and what was next to that.
fn link_in(leaves: &mut Vec<LeafEntry>, anchor: Vec<u8>, leaf: u32, previous: usize)
    requires previous { previous < length leaves.old.items }
    requires next { (k : ℕ) → next_at (nexts leaves.old.items) previous ≡ Some k → k < length leaves.old.items }
    requires room { vec_len leaves.old < vec_capacity leaves.old }
    ensures added { all_of leaves.new.items
        ≡ all_of leaves.old.items ++ record { anchor = anchor.items; leaf = leaf } ∷ [] }
    ensures previouses { previouses leaves.new.items
        ≡ previouses_with (previouses leaves.old.items) (next_at (nexts leaves.old.items) previous) previous }
    ensures nexts { nexts leaves.new.items ≡ nexts_with (nexts leaves.old.items) previous }
{
    let place = leaves.len();
    let next = leaves[previous].next;
    set_next(leaves.as_mut_slice(), previous, place);
    if let Some(next) = next {
        set_previous(leaves.as_mut_slice(), next, place);
    }
    let pushed: Result<_, _> = leaves.push(LeafEntry {
        anchor,
        leaf,
        previous,
        next,
    });
    let Ok(_) = pushed else {
        return;
    };
}

/// After the entry at this place comes another one.
fn set_next(leaves: &mut [LeafEntry], at: usize, next: usize)
    requires { at < length leaves.old }
    ensures all { all_of leaves.new ≡ all_of leaves.old }
    ensures previouses { previouses leaves.new ≡ previouses leaves.old }
    ensures nexts { nexts leaves.new ≡ slice_set (nexts leaves.old) at (Some next) }
{
    leaves[at].next = Some(next);
}

/// Before the entry at this place comes another one.
fn set_previous(leaves: &mut [LeafEntry], at: usize, previous: usize)
    requires { at < length leaves.old }
    ensures all { all_of leaves.new ≡ all_of leaves.old }
    ensures previouses { previouses leaves.new ≡ slice_set (previouses leaves.old) at previous }
    ensures nexts { nexts leaves.new ≡ nexts leaves.old }
{
    leaves[at].previous = previous;
}
