ghost use Rattle.std.specs.Prelude.{◌≡◌, ◌≤◌, ◌<◌, ◌+◌, ◌^◌, ◌++◌, ◌∷◌, [], ℕ, Some};
ghost use Rattle.std.specs.Prelude.{None, true, false, length, OnOk, OnErr, IsOk, IfOk};
ghost use Rattle.rdb_base.specs.Halvings.{IsLogarithmic};
ghost use Rattle.meta_trie.specs.Tries.{cover, IsNew, IsThere, RoomAnswer};

use crate::adding::enter;
use crate::finding::{holder, is_anchor_at, leaf_of};
use crate::leaf_entry::LeafEntry;
use crate::node::Node;
use crate::preparing::make_ready;
use crate::ready::Ready;
use crate::table::Table;
use crate::trie_error::TrieError;
use rdb_base::{NoMemory, Steps};
use std::alloc::Global;
use std::marker::Model;
use std::sync::ledger::Ledger;

/// Anchors with their leaves, and a table of the prefixes of the anchors. Contracts see the anchors in the order of
/// adding.
#[derive(Drop)]
pub struct MetaTrie {
    pub(crate) leaves: Vec<LeafEntry>,
    pub(crate) table: Table,
    pub(crate) ready: Option<Ready>,
}

impl Model for MetaTrie {
    ghost use Rattle.std.specs.Prelude.{◌<◌, vec_len, vec_capacity};
    ghost use Rattle.meta_trie.specs.Leaves.{all_of, rest_of};
    ghost use Rattle.meta_trie.specs.Readiness.{IsTrie, MayBeReady, anchor_of};
    ghost use Rattle.meta_trie.specs.Tries.{TrieState};

    ghost Value = { TrieState };

    ghost view = { λ t. record { added = rest_of (all_of t.leaves.items); ready = anchor_of t.ready } };

    ghost invariant = { λ t. IsTrie t.leaves.items t.table
        × MayBeReady t.leaves.items (vec_len t.leaves < vec_capacity t.leaves) t.table t.ready };
}

impl MetaTrie {
    /// The empty anchor with leaf 0.
    pub fn make(alloc: Global) -> Result<MetaTrie, NoMemory>
        ensures { IfOk result (λ trie. trie ≡ record { added = []; ready = None }) }
    {
        let mut leaves = Vec::new(alloc);
        leaves.push(LeafEntry {
            anchor: Vec::new(alloc),
            leaf: 0,
            previous: 0,
            next: None,
        })?;
        let table = Table::with_root(alloc, Node::begin(0, None))?;
        Ok(MetaTrie {
            leaves,
            table,
            ready: None,
        })
    }

    /// How many anchors were added.
    #[tactic(auto, using(crate::proofs::PresenceLemmas::rest_long))]
    pub fn len(&self) -> usize
        ensures { result ≡ length self.now.added }
    {
        self.leaves.len() - 1
    }

    /// The leaf of the greatest anchor that is not above a key of any length. Each node that is read is one step.
    pub fn find<L: Ledger>(&self, key: &[u8], steps: &mut Steps<L>) -> u32
        ensures cover { result ≡ cover self.now.added key.now }
        ensures counted { steps.old < steps.new }
        ensures cost { IsLogarithmic (length key.now) (steps.old + 2) steps.new }
    {
        leaf_of(self.leaves.as_slice(), &self.table, key, steps)
    }

    /// Whether an anchor is there, be it the empty one or one that was added. It costs what a find costs.
    pub fn has<L: Ledger>(&self, anchor: &[u8], steps: &mut Steps<L>) -> bool
        ensures there { result ≡ true → IsThere self.now.added anchor.now }
        ensures new { result ≡ false → IsNew self.now.added anchor.now }
        ensures counted { steps.old < steps.new }
        ensures cost { IsLogarithmic (length anchor.now) (steps.old + 2) steps.new }
    {
        let at = holder(self.leaves.as_slice(), &self.table, anchor, steps);
        is_anchor_at(self.leaves.as_slice(), at, anchor)
    }

    /// Makes all that the next adding of an anchor needs. It is refused where that would be. Refused, all stays as it
    /// was, what was made for another anchor, too.
    pub fn reserve(&mut self, alloc: Global, anchor: &[u8]) -> Result<(), TrieError>
        ensures answer { RoomAnswer result self.old.added anchor.now }
        ensures same { self.new.added ≡ self.old.added }
        ensures ready { OnOk result (self.new.ready ≡ Some anchor.now) }
        ensures refused { OnErr result (self.new ≡ self.old) }
        ensures again { self.old.ready ≡ Some anchor.now → IsOk result }
    {
        make_ready(
            alloc,
            &mut self.leaves,
            &mut self.table,
            &mut self.ready,
            anchor,
        )
    }

    /// Adds an anchor. `after` is the leaf of the greatest anchor below it. For an anchor that was prepared it takes no
    /// memory. If it succeeds, nothing is prepared any more.
    pub fn add(
        &mut self,
        alloc: Global,
        anchor: &[u8],
        leaf: u32,
        after: u32,
    ) -> Result<(), TrieError>
        requires new { IsNew self.old.added anchor.now }
        requires after { after ≡ cover self.old.added anchor.now }
        ensures answer { RoomAnswer result self.old.added anchor.now }
        ensures added { OnOk result (self.new.added
            ≡ self.old.added ++ record { anchor = anchor.now; leaf = leaf } ∷ []) }
        ensures spent { OnOk result (self.new.ready ≡ None) }
        ensures refused { OnErr result (self.new ≡ self.old) }
        ensures ready { self.old.ready ≡ Some anchor.now → IsOk result }
    {
        // The trie finds the lower neighbour itself, by its place among the anchors.
        let _ = after;
        make_ready(
            alloc,
            &mut self.leaves,
            &mut self.table,
            &mut self.ready,
            anchor,
        )?;
        let ready = self.ready.take().unwrap();
        enter(&mut self.leaves, &mut self.table, ready, leaf);
        Ok(())
    }

    /// Adds an anchor where it is new, and answers whether it was. An anchor that is there stays as it is. It is refused
    /// where `add` would be. If it succeeds, nothing is prepared any more.
    pub fn add_if_new(&mut self, alloc: Global, anchor: &[u8], leaf: u32) -> Result<bool, TrieError>
        ensures answer { RoomAnswer result self.old.added anchor.now }
        ensures new { IfOk result (λ new. new ≡ true → IsNew self.old.added anchor.now) }
        ensures added { IfOk result (λ new. new ≡ true → self.new.added
            ≡ self.old.added ++ record { anchor = anchor.now; leaf = leaf } ∷ []) }
        ensures there { IfOk result (λ new. new ≡ false → IsThere self.old.added anchor.now) }
        ensures same { IfOk result (λ new. new ≡ false → self.new.added ≡ self.old.added) }
        ensures spent { OnOk result (self.new.ready ≡ None) }
        ensures refused { OnErr result (self.new ≡ self.old) }
        ensures ready { self.old.ready ≡ Some anchor.now → IsOk result }
    {
        make_ready(
            alloc,
            &mut self.leaves,
            &mut self.table,
            &mut self.ready,
            anchor,
        )?;
        let ready = self.ready.take().unwrap();
        if is_anchor_at(self.leaves.as_slice(), ready.previous, anchor) {
            return Ok(false);
        }
        enter(&mut self.leaves, &mut self.table, ready, leaf);
        Ok(true)
    }
}
