//! Worked anchors, the last node that fits, and random anchors beside a plain sorted list.
ghost use Rattle.std.specs.Prelude.{◌≡◌, ◌<◌, ◌≤◌, false, length};
ghost use Rattle.meta_trie.specs.Tries.{IsNew, cover};

use crate::{MetaTrie, TrieError};
use rdb_base::{KEY_MAX, Steps};
use std::alloc::Global;
use std::marker::Brand;
use std::process::Abort;
use std::sync::ledger::{Blank, Ledger};
use std::test::Fail;

/// The leaf that a trie gives for a key, on a ledger of its own.
fn leaf_at(trie: &MetaTrie, key: &[u8]) -> u32
    ensures { result ≡ cover trie.now.added key.now }
{
    counted_leaf::<Brand>(trie, key, Blank::new(1))
}

fn counted_leaf<L: Ledger>(trie: &MetaTrie, key: &[u8], blank: Blank) -> u32
    requires name { blank.name ≡ L.name }
    requires parts { blank.parts ≡ L.parts }
    requires some { 0 < blank.parts }
    ensures { result ≡ cover trie.now.added key.now }
{
    let mut steps = Steps::<L>::begin(blank);
    trie.find(key, &mut steps)
}

/// Whether an anchor is there, on a ledger of its own.
fn has(trie: &MetaTrie, anchor: &[u8]) -> bool
    ensures { result ≡ false → IsNew trie.now.added anchor.now }
{
    counted_has::<Brand>(trie, anchor, Blank::new(1))
}

fn counted_has<L: Ledger>(trie: &MetaTrie, anchor: &[u8], blank: Blank) -> bool
    requires name { blank.name ≡ L.name }
    requires parts { blank.parts ≡ L.parts }
    requires some { 0 < blank.parts }
    ensures { result ≡ false → IsNew trie.now.added anchor.now }
{
    let mut steps = Steps::<L>::begin(blank);
    trie.has(anchor, &mut steps)
}

/// Adds an anchor where it is new, and answers whether it was.
fn add(alloc: Global, trie: &mut MetaTrie, anchor: &[u8], leaf: u32) -> Result<bool, TrieError> {
    if has(trie, anchor) {
        return Ok(false);
    }
    let after = leaf_at(trie, anchor);
    trie.add(alloc, anchor, leaf, after)?;
    Ok(true)
}

/// Makes all that an anchor needs.
fn prepare(alloc: Global, trie: &mut MetaTrie, anchor: &[u8]) -> Result<(), TrieError> {
    trie.reserve(alloc, anchor)
}

/// Whether a trie gives this leaf for a key.
fn gives(trie: &MetaTrie, key: &[u8], leaf: u32) -> bool {
    leaf_at(trie, key) == leaf
}

#[test]
fn ab_and_abc_make_four_nodes(rt: HostRuntime) -> Result<(), Fail> {
    let alloc = rt.alloc();
    let mut trie = MetaTrie::make(alloc)?;
    assert_eq!(rt; prepare(alloc, &mut trie, b"ab"), Ok(()));
    assert_eq!(rt; add(alloc, &mut trie, b"ab", 1), Ok(true));
    assert_eq!(rt; add(alloc, &mut trie, b"abc", 2), Ok(true));
    assert_eq!(rt; trie.table.len(), 4);
    for (key, want) in [
        (b"".as_slice(), 0),
        (b"aa", 0),
        (b"ab", 1),
        (b"abb", 1),
        (b"abc", 2),
        (b"abd", 2),
        (b"b", 2),
    ] {
        assert!(rt; gives(&trie, key, want), "{key:?}");
    }
    Ok(())
}

#[test]
fn an_anchor_that_is_there_is_not_added_again(rt: HostRuntime) -> Result<(), Fail> {
    let alloc = rt.alloc();
    let mut trie = MetaTrie::make(alloc)?;
    assert_eq!(rt; trie.add_if_new(alloc, b"ab", 1), Ok(true));
    assert_eq!(rt; trie.add_if_new(alloc, b"ab", 2), Ok(false));
    assert_eq!(rt; trie.add_if_new(alloc, b"", 3), Ok(false));
    assert_eq!(rt; trie.len(), 1);
    assert!(rt; gives(&trie, b"ab", 1));
    assert!(rt; has(&trie, b"ab") && has(&trie, b"") && !has(&trie, b"a"));
    Ok(())
}

#[test]
fn the_last_node_fits_and_one_more_is_refused(rt: HostRuntime) -> Result<(), Fail> {
    let alloc = rt.alloc();
    let mut trie = MetaTrie::make(alloc)?;
    let mut anchor = [b'x'; 257];
    for group in 0..255 {
        anchor[0] = group;
        assert_eq!(rt; add(alloc, &mut trie, &anchor, 1), Ok(true));
    }
    assert_eq!(rt; trie.table.len(), 65_536);
    anchor[0] = 255;
    let full = TrieError::TrieFull { nodes: 65_536 };
    assert_eq!(rt; add(alloc, &mut trie, &anchor[..1], 2), Err(full));
    assert_eq!(rt; add(alloc, &mut trie, b"cx", 2), Ok(true));
    assert!(rt; gives(&trie, &anchor, 1));
    Ok(())
}

#[test]
fn anchors_longer_than_keys_are_found(rt: HostRuntime) -> Result<(), Fail> {
    let alloc = rt.alloc();
    let mut trie = MetaTrie::make(alloc)?;
    let mut bytes = [b'x'; KEY_MAX + 2];
    for (last, leaf) in [(b'd', 1), (b'b', 2)] {
        bytes[KEY_MAX + 1] = last;
        assert_eq!(rt; add(alloc, &mut trie, &bytes, leaf), Ok(true));
    }
    for (last, want) in [(b'a', 0), (b'b', 2), (b'c', 2), (b'd', 1), (b'e', 1)] {
        bytes[KEY_MAX + 1] = last;
        assert!(rt; gives(&trie, &bytes, want));
    }
    Ok(())
}

#[test]
fn a_refused_anchor_leaves_what_was_prepared(rt: HostRuntime) -> Result<(), Fail> {
    let alloc = rt.alloc();
    let mut trie = MetaTrie::make(alloc)?;
    let long = Vec::from_elem(alloc, b'x', 65_536)?;
    let full = TrieError::TrieFull { nodes: 1 };
    assert_eq!(rt; prepare(alloc, &mut trie, b"ab"), Ok(()));
    assert_eq!(rt; prepare(alloc, &mut trie, &long), Err(full));
    assert!(rt; trie.ready.is_some());
    assert_eq!(rt; add(alloc, &mut trie, b"ab", 1), Ok(true));
    assert!(rt; trie.ready.is_none());
    Ok(())
}

/// A string of up to fifteen bytes, of which there are four, from a generator's state.
fn random_string(alloc: Global, state: &mut u64) -> Result<Vec<u8>, Fail> {
    let mut bytes = Vec::new(alloc);
    *state = state
        .wrapping_mul(6_364_136_223_846_793_005)
        .wrapping_add(1_442_695_040_888_963_407);
    let mut left = *state >> 28;
    let len = left % 16;
    left /= 4;
    for _ in 0..len {
        left /= 4;
        bytes.push(match left % 4 {
            0 => 0x00,
            1 => 0x01,
            2 => 0x61,
            _ => 0xFF,
        })?;
    }
    Ok(bytes)
}

/// An anchor in the plain list, with its leaf.
#[derive(Drop)]
struct Known {
    anchor: Vec<u8>,
    leaf: u32,
}

/// How many anchors of the plain list are not above a key.
fn place_of(sorted: &[Known], key: &[u8]) -> usize
    ensures { result ≤ length sorted.now }
{
    let mut low = 0;
    let mut high = sorted.len();
    'halves: while low < high {
        let middle = low + (high - low) / 2;
        if sorted[middle].anchor.as_slice() <= key {
            low = middle + 1;
        } else {
            high = middle;
        }
    }
    low
}

/// The leaf of the greatest anchor not above a key, by the plain list.
fn known_leaf(sorted: &[Known], key: &[u8]) -> u32 {
    match place_of(sorted, key) {
        0 => 0,
        place => sorted[place - 1].leaf,
    }
}

/// Puts an anchor into its place in the plain list.
fn keep(alloc: Global, sorted: &mut Vec<Known>, anchor: &[u8], leaf: u32) -> Result<(), Fail> {
    let place = place_of(sorted.as_slice(), anchor);
    let anchor = Vec::from_slice(alloc, anchor)?;
    sorted.insert(place, Known { anchor, leaf })?;
    Ok(())
}

fn agrees(trie: &MetaTrie, sorted: &[Known], key: &[u8]) -> bool {
    leaf_at(trie, key) == known_leaf(sorted, key)
}

/// Whether trie and list agree at an anchor, at keys that go on from it, and at keys a byte above, below and shorter.
fn agree_beside(
    alloc: Global,
    trie: &MetaTrie,
    sorted: &[Known],
    anchor: &[u8],
) -> Result<bool, Fail> {
    let mut key = Vec::from_slice(alloc, anchor)?;
    let mut agree = agrees(trie, sorted, &key);
    for next in [0x00, 0x62, 0xFF] {
        key.push(next)?;
        agree = agree && agrees(trie, sorted, &key);
        key.pop();
    }
    let Some(last) = key.pop() else {
        return Ok(agree);
    };
    agree = agree && agrees(trie, sorted, &key);
    for other in [last.wrapping_add(1), last.wrapping_sub(1)] {
        key.push(other)?;
        agree = agree && agrees(trie, sorted, &key);
        key.pop();
    }
    Ok(agree)
}

fn all_agree(alloc: Global, trie: &MetaTrie, sorted: &[Known]) -> Result<bool, Fail> {
    for known in sorted {
        if !agree_beside(alloc, trie, sorted, known.anchor.as_slice())? {
            return Ok(false);
        }
    }
    Ok(true)
}

/// Adds an anchor of the plain list.
fn add_known(alloc: Global, trie: &mut MetaTrie, known: &Known) -> Result<(), Fail> {
    if add(alloc, trie, known.anchor.as_slice(), known.leaf) != Ok(true) {
        return Err("not added")?;
    }
    Ok(())
}

/// A trie of some 2,000 random anchors, and the plain list of them.
fn random_trie(alloc: Global) -> Result<(MetaTrie, Vec<Known>), Fail> {
    let mut sorted = Vec::new(alloc);
    let mut trie = MetaTrie::make(alloc)?;
    let mut state = 1;
    for leaf in 1..2_801 {
        let anchor = random_string(alloc, &mut state)?;
        if add(alloc, &mut trie, &anchor, leaf) == Ok(true) {
            keep(alloc, &mut sorted, &anchor, leaf)?;
        }
    }
    Ok((trie, sorted))
}

fn rising_trie(alloc: Global, sorted: &[Known]) -> Result<MetaTrie, Fail> {
    let mut trie = MetaTrie::make(alloc)?;
    for known in sorted {
        add_known(alloc, &mut trie, known)?;
    }
    Ok(trie)
}

fn falling_trie(alloc: Global, sorted: &[Known]) -> Result<MetaTrie, Fail> {
    let mut trie = MetaTrie::make(alloc)?;
    for known in sorted.iter().rev() {
        add_known(alloc, &mut trie, known)?;
    }
    Ok(trie)
}

#[test]
fn random_anchors_agree_with_a_sorted_list(rt: HostRuntime) -> Result<(), Fail> {
    let alloc = rt.alloc();
    let (trie, sorted) = random_trie(alloc)?;
    assert!(rt; sorted.len() >= 2_000);
    assert!(rt; all_agree(alloc, &trie, &sorted)?);
    let rising = rising_trie(alloc, &sorted)?;
    assert!(rt; all_agree(alloc, &rising, &sorted)?);
    let falling = falling_trie(alloc, &sorted)?;
    assert!(rt; all_agree(alloc, &falling, &sorted)?);
    Ok(())
}
