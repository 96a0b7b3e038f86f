ghost use Rattle.std.specs.Prelude.{◌≡◌, IfOk};

use rdb_base::NoMemory;
use std::alloc::Global;
use std::marker::Model;

/// An anchor that was appended, with its leaf.
#[derive(Drop)]
pub struct Appended {
    pub(crate) anchor: Vec<u8>,
    pub(crate) leaf: u32,
}

impl Model for Appended {
    ghost use Rattle.meta_trie.specs.Tries.{Anchored};

    ghost Value = { Anchored };

    ghost view = { λ a. record { anchor = a.anchor.items; leaf = a.leaf } };
}

impl Appended {
    /// A copy of the anchor, with its leaf.
    pub(crate) fn copied(alloc: Global, anchor: &[u8], leaf: u32) -> Result<Appended, NoMemory>
        ensures { IfOk result (λ appended. appended ≡ record { anchor = anchor.now; leaf = leaf }) }
    {
        let anchor = Vec::from_slice(alloc, anchor)?;
        Ok(Appended { anchor, leaf })
    }
}
