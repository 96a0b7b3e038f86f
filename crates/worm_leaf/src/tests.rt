//! Worked splits, and each public call once with ample memory.
ghost use Rattle.std.specs.Prelude.{◌≡◌, ◌<◌, length};
ghost use Rattle.worm_leaf.specs.Leaves.{covers, unused};
ghost use Rattle.worm_leaf.specs.declared.limits.TheConstants.{LEAF_PAIRS_MAX};

use crate::{Anchor, Leaf};
use rdb_base::{Change, Key, Pair, Steps, Value};
use std::alloc::Global;
use std::marker::Brand;
use std::sync::ledger::{Blank, Ledger};
use std::test::Fail;

/// Whether a leaf covers a key, on a ledger of its own.
fn covered(leaf: &Leaf, key: &Key) -> bool
    ensures { result ≡ covers leaf.now key.now }
{
    counted::<Brand>(leaf, key, Blank::new(1))
}

fn counted<L: Ledger>(leaf: &Leaf, key: &Key, blank: Blank) -> bool
    requires name { blank.name ≡ L.name }
    requires parts { blank.parts ≡ L.parts }
    requires some { 0 < blank.parts }
    ensures { result ≡ covers leaf.now key.now }
{
    let mut steps = Steps::<L>::begin(blank);
    leaf.covers(key, &mut steps)
}

/// A prefix and two digits.
fn numbered(alloc: Global, prefix: &[u8], number: u8) -> Result<Key, Fail> {
    let mut bytes = Vec::from_slice(alloc, prefix)?;
    bytes.extend_from_slice(&[b'0' + number / 10, b'0' + number % 10])?;
    Ok(Key::try_new(alloc, bytes.as_slice())?)
}

/// Puts a key with a value of one byte; the answer is the old change.
fn put(alloc: Global, leaf: &mut Leaf, key: Key, value: u8) -> Result<Option<Change>, Fail> {
    if !covered(leaf, &key) || leaf.is_full() {
        return Err("not covered, or full")?;
    }
    let change = Change::Put(Value::try_new(alloc, &[value])?);
    Ok(leaf.put_reserved(Pair { key, change }))
}

/// Puts the keys of a prefix and 00 to 31, which are new.
fn put_32(alloc: Global, leaf: &mut Leaf, prefix: &[u8]) -> Result<(), Fail> {
    put_from(alloc, leaf, prefix, 0)
}

/// Puts 32 keys of a prefix and a number from this one on, which are new.
fn put_from(alloc: Global, leaf: &mut Leaf, prefix: &[u8], first: u8) -> Result<(), Fail> {
    for number in first..first.saturating_add(32) {
        let key = numbered(alloc, prefix, number)?;
        if put(alloc, leaf, key, b'v')?.is_some() {
            return Err("the key was there")?;
        }
    }
    Ok(())
}

/// Whether these are an anchor's bytes.
fn is_anchor(anchor: &Anchor, want: &[u8]) -> bool {
    anchor.as_bytes() == want
}

/// Whether a full leaf tells this as the anchor of its split.
fn tells_anchor(leaf: &Leaf, anchor: &mut Anchor, want: &[u8]) -> bool
    requires { length leaf.now.pairs ≡ LEAF_PAIRS_MAX }
{
    leaf.split_anchor(anchor);
    is_anchor(anchor, want)
}

/// Splits a full leaf. Whether its anchor is this.
fn splits_at(leaf: &mut Leaf, right: &mut Leaf, anchor: &mut Anchor, want: &[u8]) -> bool
    requires full { length leaf.old.pairs ≡ LEAF_PAIRS_MAX }
    requires unused { right.old ≡ unused }
{
    leaf.split_into(right, anchor);
    is_anchor(anchor, want)
}

/// Splits a leaf that is full, where its anchor is to be this one. The right leaf is the answer.
fn split_at(alloc: Global, leaf: &mut Leaf, want: &[u8]) -> Result<Leaf, Fail> {
    let mut right = Leaf::make(alloc)?;
    let mut anchor = Anchor::make(alloc)?;
    if !leaf.is_full() {
        return Err("not full")?;
    }
    let told = tells_anchor(leaf, &mut anchor, want);
    if splits_at(leaf, &mut right, &mut anchor, want) && told {
        Ok(right)
    } else {
        Err("another anchor")?
    }
}

/// Whether the first and the last key of a leaf are these.
fn has_ends(leaf: &Leaf, first: &[u8], last: &[u8]) -> bool {
    let rows = leaf.rows();
    match (rows.first(), rows.last()) {
        (Some(low), Some(high)) => low.key.as_bytes() == first && high.key.as_bytes() == last,
        _ => false,
    }
}

/// The three leaves of 32 keys that begin with `aa`, `ab` and `abc` each.
fn three_leaves(alloc: Global) -> Result<[Leaf; 3], Fail> {
    let mut left = Leaf::make(alloc)?;
    put_32(alloc, &mut left, b"aa")?;
    put_32(alloc, &mut left, b"ab")?;
    let mut middle = split_at(alloc, &mut left, b"ab")?;
    put_32(alloc, &mut middle, b"abc")?;
    let right = split_at(alloc, &mut middle, b"abc")?;
    Ok([left, middle, right])
}

#[test]
fn full_leaves_split_at_ab_and_abc(rt: HostRuntime) -> Result<(), Fail> {
    let alloc = rt.alloc();
    let leaves = three_leaves(alloc)?;
    assert!(rt; has_ends(&leaves[0], b"aa00", b"aa31"));
    assert!(rt; has_ends(&leaves[1], b"ab00", b"ab31"));
    assert!(rt; has_ends(&leaves[2], b"abc00", b"abc31"));
    for (bytes, want) in [
        (b"aa".as_slice(), 0),
        (b"aaz", 0),
        (b"ab", 1),
        (b"abb", 1),
        (b"abc", 2),
        (b"abd", 2),
    ] {
        assert!(rt; covers_alone(&leaves, &Key::try_new(alloc, bytes)?, want));
    }
    Ok(())
}

/// Whether of these leaves the one at a place covers a key, and no other one.
fn covers_alone(leaves: &[Leaf; 3], key: &Key, want: usize) -> bool {
    for (place, leaf) in leaves.iter().enumerate() {
        if covered(leaf, key) != (place == want) {
            return false;
        }
    }
    true
}

/// The leaves of k00 to k63, which fill one leaf.
fn two_leaves(alloc: Global) -> Result<[Leaf; 2], Fail> {
    let mut left = Leaf::make(alloc)?;
    put_from(alloc, &mut left, b"k", 0)?;
    put_from(alloc, &mut left, b"k", 32)?;
    let right = split_at(alloc, &mut left, b"k32")?;
    Ok([left, right])
}

#[test]
fn k00_to_k63_split_at_k32(rt: HostRuntime) -> Result<(), Fail> {
    let leaves = two_leaves(rt.alloc())?;
    assert!(rt; has_ends(&leaves[0], b"k00", b"k31"));
    assert!(rt; has_ends(&leaves[1], b"k32", b"k63"));
    assert!(rt; are_halves(&leaves[0], &leaves[1]));
    Ok(())
}

/// Whether two leaves part all keys, the left one first.
fn are_halves(left: &Leaf, right: &Leaf) -> bool {
    let begins = left.is_first() && !left.is_last() && left.meets(right);
    begins && !right.is_first() && right.is_last() && !right.meets(left)
}

/// Whether a change is there and is this one, or neither is there.
fn is_same(change: Option<&Change>, want: Option<&Change>) -> bool {
    match (change, want) {
        (Some(change), Some(want)) => change == want,
        (change, want) => change.is_none() && want.is_none(),
    }
}

/// Whether a leaf finds this at a key.
fn finds(leaf: &Leaf, key: &Key, want: Option<&Change>) -> bool {
    is_same(leaf.find(key), want)
}

/// Puts a key with a value of one byte. Whether this was the old change.
fn replaces(
    alloc: Global,
    leaf: &mut Leaf,
    key: Key,
    value: u8,
    want: Option<&Change>,
) -> Result<bool, Fail> {
    Ok(is_same(put(alloc, leaf, key, value)?.as_ref(), want))
}

#[test]
fn a_put_answers_the_old_change(rt: HostRuntime) -> Result<(), Fail> {
    let alloc = rt.alloc();
    let mut leaf = Leaf::make(alloc)?;
    let one = Change::Put(Value::try_new(alloc, b"1")?);
    let key = numbered(alloc, b"k", 7)?;
    let copy = key.try_copy(alloc)?;
    assert!(rt; finds(&leaf, &key, None));
    assert!(rt; replaces(alloc, &mut leaf, copy, b'1', None)?);
    assert!(rt; finds(&leaf, &key, Some(&one)));
    assert!(rt; replaces(alloc, &mut leaf, key, b'2', Some(&one))?);
    Ok(())
}

#[test]
fn a_leaf_is_emptied_and_used_again(rt: HostRuntime) -> Result<(), Fail> {
    let alloc = rt.alloc();
    let mut leaf = Leaf::make(alloc)?;
    put_32(alloc, &mut leaf, b"k")?;
    let mut run = Vec::with_capacity(alloc, leaf.rows().len())?;
    leaf.move_into(&mut run);
    assert_eq!(rt; run.len(), 32);
    assert!(rt; leaf.rows().is_empty());
    put_32(alloc, &mut leaf, b"k")?;
    leaf.clear();
    assert!(rt; leaf.rows().is_empty() && leaf.is_first() && leaf.is_last());
    Ok(())
}
