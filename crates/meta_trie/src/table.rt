//! The table behind the trie: from a prefix to its node.
//!
//! The trie asks it for the node of a prefix, gives it a node for a prefix that has one or has none, and takes room
//! beforehand. What it holds is told by `node_at`, `count_of` and `room_of` alone, so another table can take its place.
ghost use Rattle.std.specs.Prelude.{◌≡◌, ◌≤◌, ◌<◌, ◌+◌, ℕ, List, None, OnOk, IsOk, IfOk, true, is_some};
ghost use Rattle.std.specs.Option.{option_copied};
ghost use Rattle.meta_trie.specs.Tables.{node_at, count_of, room_of, IsSetAt, IsRootAlone};

use crate::node::Node;
use rdb_base::NoMemory;
use std::alloc::Global;
use std::collections::HashMap;

/// Nodes by their prefixes.
#[derive(Drop)]
pub(crate) struct Table {
    pub(crate) nodes: HashMap<Vec<u8>, Node>,
}

impl Table {
    /// The table in which the empty prefix alone has a node.
    pub(crate) fn with_root(alloc: Global, root: Node) -> Result<Table, NoMemory>
        ensures { IfOk result (λ table. IsRootAlone root table) }
    {
        let mut table = Table {
            nodes: HashMap::new(alloc),
        };
        table.reserve(1)?;
        table.insert(Vec::new(alloc), root);
        Ok(table)
    }

    /// The node of a prefix, where it has one.
    pub(crate) fn node(&self, prefix: &[u8]) -> Option<&Node>
        ensures node { option_copied result ≡ node_at self.now prefix.now }
    {
        self.nodes.get(prefix)
    }

    /// Another node for a prefix that has one.
    pub(crate) fn replace(&mut self, prefix: &[u8], node: Node)
        requires there { is_some (node_at self.old prefix.now) ≡ true }
        ensures set { IsSetAt self.old prefix.now node self.new }
        ensures count { count_of self.new ≡ count_of self.old }
        ensures room { room_of self.old ≤ room_of self.new }
    {
        if let Some(slot) = self.nodes.get_mut(prefix) {
            *slot = node;
        }
    }

    /// A node for a prefix that has none. There is room for it.
    pub(crate) fn insert(&mut self, prefix: Vec<u8>, node: Node)
        requires absent { node_at self.old prefix.items ≡ None }
        requires room { 0 < room_of self.old }
        ensures set { IsSetAt self.old prefix.items node self.new }
        ensures count { count_of self.new ≡ count_of self.old + 1 }
        ensures room { room_of self.old ≤ room_of self.new + 1 }
    {
        let inserted: Result<_, _> = self.nodes.insert(prefix, node);
        let Ok(_) = inserted else {
            return;
        };
    }

    /// Room for so many nodes more.
    pub(crate) fn reserve(&mut self, more: usize) -> Result<(), NoMemory>
        ensures same { (p : List ℕ) → node_at self.new p ≡ node_at self.old p }
        ensures count { count_of self.new ≡ count_of self.old }
        ensures ok { OnOk result (more ≤ room_of self.new) }
        ensures room { room_of self.old ≤ room_of self.new }
    {
        self.nodes.reserve(more)?;
        Ok(())
    }

    /// How many nodes there are.
    pub(crate) fn len(&self) -> usize
        ensures { result ≡ count_of self.now }
    {
        self.nodes.len()
    }
}
