//! The anchors of leaves, and a trie and a switch of them.
ghost use Rattle.std.specs.Prelude.{◌≡◌, ◌<◌};

use crate::keys::{key_of, number_at};
use meta_trie::MetaTrie;
use rdb_base::{Change, Key, Pair, Steps};
use std::alloc::Global;
use std::marker::Brand;
use std::sync::ledger::{Blank, Ledger};
use table_switch::{Ends, TrieWriter};
use worm_leaf::{Anchor, Leaf};

/// How many keys there are.
pub(crate) const SIZE: u32 = 64_000;

/// How many keys a leaf has.
const LEAF_KEYS: u32 = 64;

/// How many anchors there are at first, and how many more.
pub(crate) const ANCHORS: u32 = 999;

/// The anchors of the leaves of 64 keys.
pub(crate) fn first_anchors(alloc: Global) -> Option<Vec<Anchor>> {
    counted_anchors::<Brand>(alloc, 0, Blank::new(1))
}

/// Anchors in the middle of each of these leaves.
pub(crate) fn more_anchors(alloc: Global) -> Option<Vec<Anchor>> {
    counted_anchors::<Brand>(alloc, LEAF_KEYS / 2, Blank::new(1))
}

fn counted_anchors<L: Ledger>(alloc: Global, shift: u32, blank: Blank) -> Option<Vec<Anchor>>
    requires name { blank.name ≡ L.name }
    requires parts { blank.parts ≡ L.parts }
    requires some { 0 < blank.parts }
{
    let mut steps = Steps::<L>::begin(blank);
    let mut leaf = Leaf::make(alloc).ok()?;
    let mut anchors = Vec::new(alloc);
    for number in 0..ANCHORS {
        let first = (number * LEAF_KEYS + LEAF_KEYS / 2).wrapping_add(shift);
        let anchor = anchor_from(alloc, &mut leaf, first, &mut steps)?;
        anchors.push(anchor).ok()?;
    }
    Some(anchors)
}

/// The anchor of a split of the leaf that has 64 keys, the first at this place.
fn anchor_from<L: Ledger>(
    alloc: Global,
    leaf: &mut Leaf,
    first: u32,
    steps: &mut Steps<L>,
) -> Option<Anchor> {
    leaf.clear();
    for place in 0..LEAF_KEYS {
        put(
            alloc,
            leaf,
            number_at(first.wrapping_add(place), SIZE),
            steps,
        )?;
    }
    if !leaf.is_full() {
        return None;
    }
    let mut anchor = Anchor::make(alloc).ok()?;
    leaf.split_anchor(&mut anchor);
    Some(anchor)
}

/// Puts the key of a number.
fn put<L: Ledger>(alloc: Global, leaf: &mut Leaf, number: u64, steps: &mut Steps<L>) -> Option<()> {
    let key = Key::try_new(alloc, &key_of(number)).ok()?;
    let pair = Pair {
        key,
        change: Change::Del,
    };
    if leaf.is_full() || !leaf.covers(&pair.key, steps) {
        return None;
    }
    leaf.put_reserved(pair);
    Some(())
}

/// The trie of these anchors, of which each has its place in the list for its leaf.
pub(crate) fn trie_of(alloc: Global, anchors: &[Anchor]) -> Option<MetaTrie> {
    let mut trie = MetaTrie::make(alloc).ok()?;
    for (anchor, leaf) in anchors.iter().zip(0..ANCHORS) {
        trie.add_if_new(alloc, anchor.as_bytes(), leaf).ok()?;
    }
    Some(trie)
}

/// Appends an anchor with its leaf, where it is new.
pub(crate) fn append<E: Ends>(
    alloc: Global,
    writer: &mut TrieWriter<E>,
    anchor: &Anchor,
    leaf: u32,
) -> Option<()> {
    counted_append::<Brand, E>(alloc, writer, anchor, leaf, Blank::new(1))
}

fn counted_append<L: Ledger, E: Ends>(
    alloc: Global,
    writer: &mut TrieWriter<E>,
    anchor: &Anchor,
    leaf: u32,
    blank: Blank,
) -> Option<()>
    requires name { blank.name ≡ L.name }
    requires parts { blank.parts ≡ L.parts }
    requires some { 0 < blank.parts }
{
    let mut steps = Steps::<L>::begin(blank);
    if writer.has(anchor.as_bytes(), &mut steps) {
        return None;
    }
    let after = writer.find(anchor.as_bytes(), &mut steps);
    writer.append(alloc, anchor, leaf, after).ok()
}

/// Appends these anchors, as `trie_of` adds them.
pub(crate) fn append_each<E: Ends>(
    alloc: Global,
    writer: &mut TrieWriter<E>,
    anchors: &[Anchor],
) -> Option<()> {
    for (anchor, leaf) in anchors.iter().zip(0..ANCHORS) {
        append(alloc, writer, anchor, leaf)?;
    }
    Some(())
}
