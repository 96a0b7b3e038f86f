ghost use Rattle.std.specs.Prelude.{◌≡◌, ◌<◌, ◌++◌, [], ◌∷◌, length, OnOk, OnErr, IfOk};
ghost use Rattle.remix_seek.specs.Searches.{AnchorAt};

use crate::anchor_keys::AnchorKeys;
use rdb_base::{Key, NoMemory};
use std::alloc::Global;
use std::marker::Model;

/// The first key of each segment, in order. Contracts see it as the list of these keys.
#[derive(Drop)]
pub struct Anchors {
    pub(crate) keys: AnchorKeys,
}

impl Model for Anchors {
    ghost use Rattle.std.specs.Prelude.{ℕ, List};
    ghost use Rattle.remix_seek.specs.KeptAnchors.{keys_kept};

    ghost Value = { List (List ℕ) };

    ghost view = { λ a. keys_kept a.keys };

    ghost invariant = { λ a. Unit {0} };
}

impl Anchors {
    /// No anchor.
    pub fn new(alloc: Global) -> Anchors
        ensures { result ≡ [] }
    {
        Anchors {
            keys: AnchorKeys::Owned(Vec::new(alloc)),
        }
    }

    /// Adds the anchor of the next segment.
    pub fn push(&mut self, alloc: Global, anchor: Key) -> Result<(), NoMemory>
        ensures added { OnOk result (self.new ≡ self.old ++ anchor ∷ []) }
        ensures same { OnErr result (self.new ≡ self.old) }
    {
        self.keys.push(alloc, anchor)
    }

    /// How many anchors there are.
    pub fn count(&self) -> usize
        ensures { result ≡ length self.now }
    {
        self.keys.as_slice().len()
    }

    /// The anchor of a segment.
    pub fn at(&self, segment: u32) -> &Key
        requires { segment < length self.now }
        ensures { AnchorAt self.now segment result.now }
    {
        &self.keys.as_slice()[segment as usize]
    }

    /// The same anchors, which later copies share.
    pub fn seal(self, alloc: Global) -> Result<Anchors, NoMemory>
        ensures { IfOk result (λ anchors. anchors ≡ self) }
    {
        Ok(Anchors {
            keys: self.keys.seal(alloc)?,
        })
    }

    /// Equal anchors. Sealed ones are shared, others are copied.
    pub fn share(&self, alloc: Global) -> Result<Anchors, NoMemory>
        ensures { IfOk result (λ anchors. anchors ≡ self.now) }
    {
        Ok(Anchors {
            keys: self.keys.share(alloc)?,
        })
    }
}
