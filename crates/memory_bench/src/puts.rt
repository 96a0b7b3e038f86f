//! Puts of keys into leaves that have room.
ghost use Rattle.std.specs.Prelude.{◌≡◌, ◌<◌, length};
ghost use Rattle.worm_leaf.specs.Leaves.{unused};
ghost use Rattle.worm_leaf.specs.declared.limits.TheConstants.{LEAF_PAIRS_MAX};

use crate::keys::{key_of, next_place, number_at};
use rdb_base::{Change, Key, Pair, Steps, Value};
use std::alloc::Global;
use std::marker::Brand;
use std::sync::ledger::{Blank, Ledger};
use worm_leaf::{Anchor, Leaf};

/// The bytes of a value.
const VALUE: [u8; 16] = *b"0123456789abcdef";

/// Puts so many pairs, of so many keys, into a leaf that is split and cleared when it is full. How many keys were new
/// is the answer.
pub(crate) fn put_all(alloc: Global, size: u32, times: u32) -> Option<u64> {
    counted_puts::<Brand>(alloc, size, times, Blank::new(1))
}

fn counted_puts<L: Ledger>(alloc: Global, size: u32, times: u32, blank: Blank) -> Option<u64>
    requires name { blank.name ≡ L.name }
    requires parts { blank.parts ≡ L.parts }
    requires some { 0 < blank.parts }
{
    if size == 0 {
        return None;
    }
    let mut steps = Steps::<L>::begin(blank);
    let mut leaf = Leaf::make(alloc).ok()?;
    let mut right = Leaf::make(alloc).ok()?;
    let mut anchor = Anchor::make(alloc).ok()?;
    let mut new: u64 = 0;
    let mut place = 0;
    'puts: for _ in 0..times {
        place = next_place(place, size);
        let pair = pair_of(alloc, number_at(place, size))?;
        if leaf.is_full() {
            split_and_clear(&mut leaf, &mut right, &mut anchor);
        }
        if leaf.covers(&pair.key, &mut steps) && leaf.put_reserved(pair).is_none() {
            new = new.wrapping_add(1);
        }
    }
    Some(new)
}

/// Splits a full leaf, and makes both halves unused again.
fn split_and_clear(leaf: &mut Leaf, right: &mut Leaf, anchor: &mut Anchor)
    requires full { length leaf.old.pairs ≡ LEAF_PAIRS_MAX }
    requires unused { right.old ≡ unused }
    ensures left { leaf.new ≡ unused }
    ensures right { right.new ≡ unused }
{
    leaf.split_into(right, anchor);
    leaf.clear();
    right.clear();
}

/// The pair of a number.
fn pair_of(alloc: Global, number: u64) -> Option<Pair> {
    let key = Key::try_new(alloc, &key_of(number)).ok()?;
    let value = Value::try_new(alloc, &VALUE).ok()?;
    Some(Pair {
        key,
        change: Change::Put(value),
    })
}
