//! The leaf of a key: that of the last change, or else the one that the trie gives. Keys that come in order mostly stay in
//! one leaf, and a put comes to the leaf that was just asked for room.
ghost use Rattle.std.specs.Prelude.{◌≡◌, ◌<◌, ◌+◌, ℕ, List, length};
ghost use Rattle.rdb_base.specs.Halvings.{IsLogarithmic};
ghost use Rattle.meta_trie.specs.Tries.{cover};
ghost use Rattle.leaf_table.specs.Tables.{IsTable};

use meta_trie::MetaTrie;
use rdb_base::{Key, Steps};
use std::sync::ledger::Ledger;
use worm_leaf::Leaf;

/// The number of the leaf that covers a key, with a look at the leaf of the last change first.
pub(crate) fn number_of<L: Ledger>(
    leaves: &[Leaf],
    trie: &MetaTrie,
    recent: u32,
    key: &Key,
    steps: &mut Steps<L>,
) -> u32
    requires table { (order : List ℕ) × IsTable leaves.now order trie.now.added }
    requires recent { recent < length leaves.now }
    ensures cover { result ≡ cover trie.now.added key.now }
    ensures cost { IsLogarithmic (length key.now) (steps.old + 3) steps.new }
{
    if leaves[recent as usize].covers(key, steps) {
        recent
    } else {
        trie.find(key.as_bytes(), steps)
    }
}
