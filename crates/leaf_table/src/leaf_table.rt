ghost use Rattle.std.specs.Prelude.{◌≡◌, ◌≤◌, ◌<◌, ◌+◌, ◌^◌, if◌then◌else◌, ◌++◌, ◌∷◌, ◌↔◌, [], IsTrue, IfOk, OnErr, OnOk, is_some, length};
ghost use Rattle.std.specs.Option.{option_copied};
ghost use Rattle.rdb_base.specs.Halvings.{IsLogarithmic};
ghost use Rattle.rdb_base.specs.Levels.{with_pair};
ghost use Rattle.rdb_base.specs.Runs.{IsRun, change_at};
ghost use Rattle.worm_leaf.specs.Leaves.{unused};
ghost use Rattle.leaf_table.specs.Chains.{pairs_of, lows_of, HasRoom, HasRoomAt};

use crate::finding::number_of;
use crate::limits::LEAVES_MAX;
use meta_trie::MetaTrie;
use rdb_base::{Change, Key, NoMemory, Pair, Steps};
use std::alloc::Global;
use std::marker::Model;
use std::sync::ledger::Ledger;
use worm_leaf::{Anchor, Leaf};

/// Leaves that part all keys, and the trie that finds the leaf of a key. Contracts see the leaves by rising ranges.
#[derive(Drop)]
pub struct LeafTable {
    /// By number: in the order in which they came into use.
    pub(crate) leaves: Vec<Leaf>,
    /// The numbers of the leaves, by rising ranges.
    pub(crate) order: Vec<u32>,
    pub(crate) trie: MetaTrie,
    /// The number of the leaf of the last change. It is looked at before the trie.
    pub(crate) recent: u32,
    /// How many pairs there are.
    pub(crate) count: usize,
    /// Leaves that were used once and are to be used again.
    pub(crate) spare: Vec<Leaf>,
    /// Room for the anchor of a split.
    pub(crate) anchor: Anchor,
}

impl Model for LeafTable {
    ghost use Rattle.std.specs.Prelude.{◌≡◌, ◌<◌, List, length};
    ghost use Rattle.worm_leaf.specs.Leaves.{LeafState};
    ghost use Rattle.leaf_table.specs.Chains.{pairs_of};
    ghost use Rattle.leaf_table.specs.Tables.{chain_of, IsTable, HasRooms};

    ghost Value = { List LeafState };

    ghost view = { λ t. chain_of t.leaves.items t.order.items };

    ghost invariant = { λ t. IsTable t.leaves.items t.order.items t.trie.added
        × (t.count ≡ length (pairs_of (chain_of t.leaves.items t.order.items)))
        × HasRooms t.leaves t.order t.spare
        × (t.recent < length t.leaves.items) };
}

impl LeafTable {
    /// One leaf over all keys, without a pair. Room for `LEAVES_MAX` leaves in the lists is taken here, and the leaves'
    /// own room as they come into use.
    pub fn make(alloc: Global) -> Result<LeafTable, NoMemory>
        ensures { IfOk result (λ table. table ≡ unused ∷ []) }
    {
        let mut leaves = Vec::with_capacity(alloc, LEAVES_MAX)?;
        leaves.push(Leaf::make(alloc)?)?;
        let mut order = Vec::with_capacity(alloc, LEAVES_MAX)?;
        order.push(0)?;
        Ok(LeafTable {
            leaves,
            order,
            trie: MetaTrie::make(alloc)?,
            recent: 0,
            count: 0,
            spare: Vec::with_capacity(alloc, LEAVES_MAX)?,
            anchor: Anchor::make(alloc)?,
        })
    }

    /// How many pairs there are. All of them are one run.
    pub fn len(&self) -> usize
        ensures count { result ≡ length (pairs_of self.now) }
        ensures rises { IsRun (pairs_of self.now) }
    {
        self.count
    }

    /// Whether there is no pair.
    pub fn is_empty(&self) -> bool
        ensures { IsTrue result ↔ (length (pairs_of self.now) ≡ 0) }
    {
        self.count == 0
    }

    /// How many leaves are used.
    pub fn leaves(&self) -> usize
        ensures count { result ≡ length self.now }
        ensures most { length self.now ≤ LEAVES_MAX }
    {
        self.leaves.len()
    }

    /// The change at a key, where one was set. It looks at the leaf of the last change, and reads as many nodes as the
    /// trie does where that is another one.
    pub fn find<L: Ledger>(&self, key: &Key, steps: &mut Steps<L>) -> Option<&Change>
        ensures change { option_copied result ≡ change_at (pairs_of self.now) key.now }
        ensures cost { IsLogarithmic (length key.now) (steps.old + 3) steps.new }
    {
        let number = number_of(self.leaves.as_slice(), &self.trie, self.recent, key, steps);
        self.leaves[number as usize].find(key)
    }

    /// Whether a change at this key can be set without a split. A put at the key then finds its leaf at once.
    pub fn has_room<L: Ledger>(&mut self, key: &Key, steps: &mut Steps<L>) -> bool
        ensures answer { IsTrue result ↔ HasRoomAt self.old key.now }
        ensures same { self.new ≡ self.old }
        ensures cost { IsLogarithmic (length key.now) (steps.old + 3) steps.new }
    {
        let number = number_of(self.leaves.as_slice(), &self.trie, self.recent, key, steps);
        self.recent = number;
        has_room_in(&self.leaves[number as usize], key)
    }

    /// Sets the change at a key, and answers the old one. It takes no memory.
    pub fn put_reserved<L: Ledger>(&mut self, pair: Pair, steps: &mut Steps<L>) -> Option<Change>
        requires room { HasRoomAt self.old pair.key }
        ensures set { pairs_of self.new ≡ with_pair (pairs_of self.old) pair }
        ensures old { result ≡ change_at (pairs_of self.old) pair.key }
        ensures rises { IsRun (pairs_of self.old) }
        ensures ranges { lows_of self.new ≡ lows_of self.old }
        ensures leaves { length self.new ≡ length self.old }
        ensures cost { IsLogarithmic (length pair.key) (steps.old + 3) steps.new }
    {
        let number = number_of(
            self.leaves.as_slice(),
            &self.trie,
            self.recent,
            &pair.key,
            steps,
        );
        self.recent = number;
        let old = self.leaves[number as usize].put_reserved(pair);
        self.count = count_with(self.count, &old);
        old
    }
}

/// Whether a leaf has room for a pair more, or has the key.
fn has_room_in(leaf: &Leaf, key: &Key) -> bool
    ensures { IsTrue result ↔ HasRoom leaf.now key.now }
{
    !leaf.is_full() || leaf.find(key).is_some()
}

/// How many pairs there are after a put that answered this: one more, where there was none.
fn count_with(count: usize, old: &Option<Change>) -> usize
    requires { count + 1 < 2 ^ 64 }
    ensures { result ≡ (if is_some old.now then count else count + 1) }
{
    if old.is_some() { count } else { count + 1 }
}
