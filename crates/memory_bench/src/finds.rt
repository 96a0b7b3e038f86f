//! Finds of keys over anchors: each 64th key's first bytes.
ghost use Rattle.std.specs.Prelude.{◌≡◌, ◌<◌, true};
ghost use Rattle.memory_bench.specs.Rising.{NoneAbove};

use crate::keys::{KEY_LEN, key_of, next_place, number_at};
use meta_trie::MetaTrie;
use rdb_base::{Steps, compare_bytes};
use std::alloc::Global;
use std::marker::Brand;
use std::sync::ledger::{Blank, Ledger};

/// How many keys a leaf has.
const LEAF_KEYS: u32 = 64;

/// How many bytes an anchor has.
const ANCHOR_LEN: usize = 8;

/// Finds so many keys, of so many, over the anchors of their leaves. The sum of the leaves is the answer.
pub(crate) fn find_all(alloc: Global, size: u32, times: u32) -> Option<u64> {
    counted_finds::<Brand>(alloc, size, times, Blank::new(1))
}

fn counted_finds<L: Ledger>(alloc: Global, size: u32, times: u32, blank: Blank) -> Option<u64>
    requires name { blank.name ≡ L.name }
    requires parts { blank.parts ≡ L.parts }
    requires some { 0 < blank.parts }
{
    if size == 0 {
        return None;
    }
    let mut steps = Steps::<L>::begin(blank);
    let trie = anchors_of(alloc, size, &mut steps)?;
    let keys = keys_of(alloc, size)?;
    let mut sum: u64 = 0;
    let mut place = 0;
    for _ in 0..times {
        place = next_place(place, size);
        let key = keys.get(place as usize)?;
        sum = sum.wrapping_add(trie.find(key.as_slice(), &mut steps) as u64);
    }
    Some(sum)
}

/// All keys, rising.
fn keys_of(alloc: Global, size: u32) -> Option<Vec<[u8; KEY_LEN]>>
    requires { 0 < size }
{
    let mut keys = Vec::new(alloc);
    for place in 0..size {
        keys.push(key_of(number_at(place, size))).ok()?;
    }
    Some(keys)
}

/// The trie of the anchors: leaf 1 has the first bytes of the 64th key, and so on.
fn anchors_of<L: Ledger>(alloc: Global, size: u32, steps: &mut Steps<L>) -> Option<MetaTrie>
    requires { 0 < size }
{
    let mut trie = MetaTrie::make(alloc).ok()?;
    let mut last = Vec::new(alloc);
    'leaves: for leaf in 1..size / LEAF_KEYS {
        let key = key_of(number_at(leaf * LEAF_KEYS, size));
        let (anchor, _) = key.split_at(ANCHOR_LEN);
        if !add_above(alloc, &mut trie, last.as_slice(), anchor, leaf, steps) {
            return None;
        }
        last = Vec::from_slice(alloc, anchor).ok()?;
    }
    Some(trie)
}

/// Adds an anchor above the last one, which is above all others. Whether it was added.
fn add_above<L: Ledger>(
    alloc: Global,
    trie: &mut MetaTrie,
    last: &[u8],
    anchor: &[u8],
    leaf: u32,
    steps: &mut Steps<L>,
) -> bool
    requires rising { NoneAbove trie.old.added last.now }
    ensures { result ≡ true → NoneAbove trie.new.added anchor.now }
{
    if compare_bytes(last, anchor).is_lt() {
        let after = trie.find(anchor, steps);
        return match trie.add(alloc, anchor, leaf, after) {
            Ok(()) => true,
            Err(_) => false,
        };
    }
    false
}
