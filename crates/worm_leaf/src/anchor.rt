ghost use Rattle.std.specs.Prelude.{◌≡◌, ◌≤◌, [], length, IfOk};
ghost use Rattle.rdb_base.specs.declared.limits.TheConstants.{KEY_MAX};

use rdb_base::{KEY_MAX, NoMemory};
use std::alloc::Global;
use std::marker::Model;

/// A string of at most `KEY_MAX` bytes, with room for as many. Contracts see it as the list of its bytes.
#[derive(Drop)]
pub struct Anchor {
    bytes: Vec<u8>,
}

impl Model for Anchor {
    ghost use Rattle.std.specs.Prelude.{◌≤◌, ℕ, List, length, vec_capacity};
    ghost use Rattle.rdb_base.specs.declared.limits.TheConstants.{KEY_MAX};

    ghost Value = { List ℕ };

    ghost view = { λ a. a.bytes.items };

    ghost invariant = { λ a. (length a.bytes.items ≤ KEY_MAX) × (KEY_MAX ≤ vec_capacity a.bytes) };
}

impl Anchor {
    /// The empty anchor. All its room is taken here.
    pub fn make(alloc: Global) -> Result<Anchor, NoMemory>
        ensures { IfOk result (λ anchor. anchor ≡ []) }
    {
        Ok(Anchor {
            bytes: Vec::with_capacity(alloc, KEY_MAX)?,
        })
    }

    /// Its bytes.
    pub fn as_bytes(&self) -> &[u8]
        ensures bytes { result.now ≡ self.now }
        ensures fits { length self.now ≤ KEY_MAX }
    {
        self.bytes.as_slice()
    }

    /// Other bytes in place of its own.
    pub(crate) fn set(&mut self, bytes: &[u8])
        requires { length bytes.now ≤ KEY_MAX }
        ensures { self.new ≡ bytes.now }
    {
        self.bytes.clear();
        self.bytes.extend_from_slice(bytes).unwrap();
    }
}
