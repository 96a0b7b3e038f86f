ghost use Rattle.std.specs.Prelude.{◌≡◌, ◌≤◌, ◌<◌, ◌+◌, ◌++◌, ◌∷◌, [], None, length, vec_len, vec_capacity};
ghost use Rattle.std.specs.List.{AllByRecursion};
ghost use Rattle.rdb_base.specs.Runs.{IsRun};
ghost use Rattle.worm_leaf.specs.Leaves.{unused};
ghost use Rattle.leaf_table.specs.Chains.{pairs_of};
ghost use Rattle.leaf_table.specs.Tables.{chain_of, IsOnce};

use crate::leaf_table::LeafTable;
use meta_trie::MetaTrie;
use rdb_base::Pair;
use worm_leaf::Leaf;

impl LeafTable {
    /// Moves all pairs to the end of a list that has room for them, by rising keys, and begins again with a new trie.
    /// It takes no memory: the leaves are emptied, and used again.
    pub fn move_into(&mut self, run: &mut Vec<Pair>, trie: MetaTrie)
        requires room { vec_len run.old + length (pairs_of self.old) ≤ vec_capacity run.old }
        requires fresh { trie ≡ record { added = []; ready = None } }
        ensures moved { run.new.items ≡ run.old.items ++ pairs_of self.old }
        ensures rises { IsRun (pairs_of self.old) }
        ensures capacity { vec_capacity run.old ≤ vec_capacity run.new }
        ensures empty { self.new ≡ unused ∷ [] }
    {
        move_all(&mut self.leaves, self.order.as_slice(), run);
        set_aside(&mut self.leaves, &mut self.spare);
        self.order.truncate(1);
        self.order[0] = 0;
        self.recent = 0;
        self.count = 0;
        self.trie = trie;
    }
}

/// Moves the pairs of the leaves with these numbers to the end of a list that has room for them.
fn move_all(leaves: &mut [Leaf], order: &[u32], run: &mut Vec<Pair>)
    requires within { AllByRecursion (λ number. number < length leaves.old) order.now }
    requires once { IsOnce order.now }
    requires room { vec_len run.old + length (pairs_of (chain_of leaves.old order.now)) ≤ vec_capacity run.old }
    ensures moved { run.new.items ≡ run.old.items ++ pairs_of (chain_of leaves.old order.now) }
    ensures len { length leaves.new ≡ length leaves.old }
    ensures capacity { vec_capacity run.old ≤ vec_capacity run.new }
{
    for i in 0..order.len() {
        leaves[order[i] as usize].move_into(run);
    }
}

/// Makes all leaves but one unused, and sets them aside.
fn set_aside(leaves: &mut Vec<Leaf>, spare: &mut Vec<Leaf>)
    requires some { 0 < vec_len leaves.old }
    requires room { vec_len leaves.old + vec_len spare.old ≤ vec_capacity spare.old }
    requires unused { AllByRecursion (λ leaf. leaf ≡ unused) spare.old.items }
    ensures one { leaves.new.items ≡ unused ∷ [] }
    ensures unused { AllByRecursion (λ leaf. leaf ≡ unused) spare.new.items }
    ensures most { vec_len leaves.new + vec_len spare.new ≡ vec_len leaves.old + vec_len spare.old }
    ensures capacity { (vec_capacity leaves.new ≡ vec_capacity leaves.old) × (vec_capacity spare.old ≤ vec_capacity spare.new) }
{
    while leaves.len() > 1 {
        let mut leaf = leaves.pop().unwrap();
        leaf.clear();
        spare.push(leaf).unwrap();
    }
    leaves[0].clear();
}
