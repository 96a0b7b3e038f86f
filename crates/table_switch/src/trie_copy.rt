ghost use Rattle.std.specs.Prelude.{◌≡◌, ◌≤◌, ◌<◌, ◌+◌, ◌^◌, [], ℕ, length, IfOk};
ghost use Rattle.rdb_base.specs.Halvings.{IsLogarithmic};
ghost use Rattle.meta_trie.specs.Tries.{cover};

use crate::front::Front;
use crate::told::Told;
use crate::trail::Trail;
use left_right::Absorb;
use meta_trie::MetaTrie;
use rdb_base::{NoMemory, Steps};
use std::alloc::{AllocError, Global};
use std::marker::Model;
use std::sync::ledger::Ledger;

/// One of the two copies of the trie. Contracts see the anchors that were added, in the order of adding, and the front
/// that came with the last one.
#[derive(Drop)]
pub struct TrieCopy {
    trie: MetaTrie,
    front: Front,
    /// An operation comes without an allocator.
    alloc: Global,
}

impl Model for TrieCopy {
    ghost use Rattle.table_switch.specs.Published.{CopyState};

    ghost Value = { CopyState };

    ghost view = { λ copy. record { added = copy.trie.added; front = copy.front } };
}

impl TrieCopy {
    /// The trie of the empty anchor.
    pub(crate) fn make(alloc: Global, front: Front) -> Result<TrieCopy, NoMemory>
        ensures { IfOk result (λ copy. copy ≡ record { added = []; front = front }) }
    {
        let trie = MetaTrie::make(alloc)?;
        Ok(TrieCopy { trie, front, alloc })
    }

    /// The anchors that it has, once it is published.
    pub(crate) fn front(&self) -> Front
        ensures { result ≡ self.now.front }
    {
        self.front.again()
    }

    /// The leaf of a key, and how many anchors were added. Each node that is read is one step.
    pub(crate) fn trail<L: Ledger>(&self, key: &[u8], steps: &mut Steps<L>) -> Trail
        ensures start { result.start ≡ cover self.now.added key.now }
        ensures adds { result.adds ≡ length self.now.added }
        ensures counted { steps.old < steps.new }
        ensures cost { IsLogarithmic (length key.now) (steps.old + 2) steps.new }
    {
        let start = self.trie.find(key, steps);
        let adds = self.trie.len() as u64;
        Trail { start, adds }
    }
}

impl Absorb<Told> for TrieCopy {
    ghost use Rattle.table_switch.specs.Published.{with_told};

    type State = TrieCopy;

    ghost state = { λ copy. copy };

    ghost applied = { λ copy told. with_told copy told };

    fn absorb_first(&mut self, operation: &Told, _other: &TrieCopy) -> Result<(), AllocError> {
        let anchor = operation.appended.anchor.as_slice();
        match self
            .trie
            .add_if_new(self.alloc, anchor, operation.appended.leaf)
        {
            Ok(true) => {
                self.front = operation.front.again();
                Ok(())
            }
            // The writer's own trie took the anchor before, so it is new here, and its nodes fit.
            Ok(false) => Err(AllocError),
            Err(_) => Err(AllocError),
        }
    }
}
