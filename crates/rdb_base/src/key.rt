ghost use Rattle.std.specs.Prelude.{◌≡◌, ◌≤◌, ◌+◌, ◌==◌, List, ℕ, length, max, IfOk, IsOk};
ghost use Rattle.std.specs.Ordering.{nat_cmp, as_partial_cmp};
ghost use Rattle.std.specs.Cmp.Lexicographic.{pointwise, slice_cmp};
ghost use Rattle.std.specs.Cmp.{partial_order_from_own_ties};
ghost use Rattle.std.specs.Cmp.Rules.{comparing};
ghost use Rattle.std.proofs.Common.{rules};
ghost use Rattle.rdb_base.specs.Lengths.{IsKeyLength};
ghost use Rattle.rdb_base.specs.Answers.{KeyAnswer};
ghost use Rattle.rdb_base.specs.Order.{key_cmp};
ghost use Rattle.rdb_base.specs.declared.limits.TheConstants.{INLINE_KEY_MAX};

use crate::NoMemory;
use crate::byte_order::compare_bytes;
use crate::exact_copy::exact_copy;
use crate::key_error::KeyError;
use crate::limits::{INLINE_KEY_MAX, KEY_MAX};
use crate::steps::Steps;
use smallvec::SmallVec;
use std::alloc::Global;
use std::cmp::Ordering;
use std::marker::Model;
use std::sync::ledger::Ledger;

/// A key: 1 to `KEY_MAX` bytes. Contracts see it as the list of its bytes.
///
/// A key of up to `INLINE_KEY_MAX` bytes needs no allocation.
#[derive(Debug, Drop)]
pub struct Key {
    bytes: SmallVec<u8, INLINE_KEY_MAX>,
}

impl Model for Key {
    ghost use Rattle.std.specs.Prelude.{ℕ, ◌≤◌, List, length, max};
    ghost use Rattle.rdb_base.specs.Lengths.{IsKeyLength};
    ghost use Rattle.rdb_base.specs.declared.limits.TheConstants.{INLINE_KEY_MAX};

    ghost Value = { List ℕ };

    ghost view = { λ k. k.bytes.items };

    ghost invariant = { λ k. IsKeyLength (length k.bytes.items) × (k.bytes.capacity ≤ max INLINE_KEY_MAX (length k.bytes.items)) };
}

impl Key {
    /// The key of these bytes. A short one is never refused for memory.
    pub fn try_new(alloc: Global, bytes: &[u8]) -> Result<Key, KeyError>
        ensures answer { KeyAnswer result bytes.now }
        ensures short { 1 ≤ length bytes.now → length bytes.now ≤ INLINE_KEY_MAX → IsOk result }
    {
        let len = bytes.len();
        if len == 0 || len > KEY_MAX {
            return Err(KeyError::BadKey { len });
        }
        match key_bytes(alloc, bytes) {
            Ok(bytes) => Ok(Key { bytes }),
            Err(_) => Err(KeyError::Memory),
        }
    }

    /// Its bytes.
    pub fn as_bytes(&self) -> &[u8]
        ensures bytes { result.now ≡ self.now }
        ensures fits { IsKeyLength (length self.now) }
    {
        self.bytes.as_slice()
    }

    /// The order of two keys: by unsigned bytes, a proper prefix first. It is one step.
    pub fn compare<L: Ledger>(&self, other: &Key, steps: &mut Steps<L>) -> Ordering
        ensures order { result ≡ key_cmp self.now other.now }
        ensures cost { steps.new ≡ steps.old + 1 }
    {
        steps.tick();
        self.cmp(other)
    }

    /// An equal key. A short one is never refused.
    pub fn try_copy(&self, alloc: Global) -> Result<Key, NoMemory>
        ensures equal { IfOk result (λ key. key ≡ self.now) }
        ensures short { length self.now ≤ INLINE_KEY_MAX → IsOk result }
    {
        Ok(Key {
            bytes: key_bytes(alloc, self.bytes.as_slice())?,
        })
    }
}

/// A copy of a key's bytes. It keeps no room beyond them, but the room that each key has inline.
fn key_bytes(alloc: Global, bytes: &[u8]) -> Result<SmallVec<u8, INLINE_KEY_MAX>, NoMemory>
    ensures items { IfOk result (λ copy. copy.items ≡ bytes.now) }
    ensures short { length bytes.now ≤ INLINE_KEY_MAX → IsOk result }
    ensures room { IfOk result (λ copy. copy.capacity ≤ max INLINE_KEY_MAX (length copy.items)) }
{
    if bytes.len() <= INLINE_KEY_MAX {
        return SmallVec::from_slice(alloc, bytes);
    }
    Ok(SmallVec::from_vec(exact_copy(alloc, bytes)?))
}

impl PartialEq for Key {
    ghost eq = { pointwise ◌==◌ };

    ghost laws = { Prim.search (comparing, rules) };

    fn eq(&self, other: &Key) -> bool {
        self.bytes.as_slice() == other.bytes.as_slice()
    }
}

impl Eq for Key {
    ghost laws = { Prim.search (comparing, rules) };
}

impl Ord for Key {
    ghost cmp = { slice_cmp nat_cmp };

    ghost total = { Prim.search (comparing, rules) };

    ghost matches_partial_cmp = { Prim.search (comparing, rules) };

    ghost matches_eq = { Prim.search (comparing, rules) };

    fn cmp(&self, other: &Key) -> Ordering {
        compare_bytes(self.bytes.as_slice(), other.bytes.as_slice())
    }
}

impl PartialOrd for Key {
    ghost partial_cmp = { as_partial_cmp (slice_cmp nat_cmp) };

    ghost laws = { partial_order_from_own_ties (Prim.search (comparing, rules)) (Prim.search (comparing, rules)) };

    fn partial_cmp(&self, other: &Key) -> Option<Ordering> {
        Some(self.cmp(other))
    }
}
