//! The bytes of blocks, written out by hand, and the place of each wrong field.
use crate::laws::blocks_read_back;
use crate::{
    FIRST_LIMITS, UNIT, block_fits, check_block, lent_pair, pair_at, read_block, write_block,
};
use rdb_base::{BadField, Change, Key, Pair, Value, size};
use std::alloc::Global;
use std::process::Abort;
use std::test::Fail;

/// The block of the pair a=1 before its padding.
const ONE: &[u8] = b"\0\x01\0\x04\0\x01a\0\0\0\x011";

/// The block of a=1 and a deletion of b before its padding.
const TWO: &[u8] = b"\0\x02\0\x06\0\x0E\0\x01a\0\0\0\x011\0\x01b\xFF\xFF\xFF\xFF";

fn put_of(alloc: Global, key: &[u8], value: &[u8]) -> Result<Pair, Fail> {
    Ok(Pair {
        key: Key::try_new(alloc, key)?,
        change: Change::Put(Value::try_new(alloc, value)?),
    })
}

fn delete_of(alloc: Global, key: &[u8]) -> Result<Pair, Fail> {
    Ok(Pair {
        key: Key::try_new(alloc, key)?,
        change: Change::Del,
    })
}

/// These bytes, and bytes 00 up to this length.
fn padded(alloc: Global, bytes: &[u8], len: usize) -> Result<Vec<u8>, Fail> {
    let mut block = Vec::from_slice(alloc, bytes)?;
    for _ in bytes.len()..len {
        block.push(0)?;
    }
    Ok(block)
}

/// Checks a block that has to have so many pairs.
fn has_pairs(rt: &(impl Abort + AllocGlobal), block: &[u8], count: u16) {
    assert_eq!(rt; check_block(block), Ok(count));
}

/// Checks bytes that have to be wrong at this place.
fn is_wrong_at(rt: &(impl Abort + AllocGlobal), bytes: &[u8], place: usize) {
    assert_eq!(rt; check_block(bytes), Err(place));
}

/// These bytes with others from this place on, and of all that so many.
fn changed(alloc: Global, at: usize, bytes: &[u8], len: usize) -> Result<Vec<u8>, Fail> {
    let whole = padded(alloc, TWO, 8192)?;
    let (front, rest) = whole.as_slice().split_at(at.min(whole.len()));
    let (_, back) = rest.split_at(bytes.len().min(rest.len()));
    let mut made = Vec::from_slice(alloc, front)?;
    made.extend_from_slice(bytes)?;
    made.extend_from_slice(back)?;
    made.truncate(len);
    Ok(made)
}

/// Writes a block of one pair, which has to have these bytes.
fn one_is_written(
    rt: &(impl Abort + AllocGlobal),
    pairs: &[Pair],
    bytes: &[u8],
) -> Result<(), Fail> {
    let [_] = pairs else {
        return Err("not one pair")?;
    };
    let mut block = Vec::new(rt.alloc());
    write_block(pairs, &mut block)?;
    assert!(rt; block.as_slice() == bytes);
    Ok(())
}

/// Writes a block of two pairs, which has to have these bytes.
fn two_are_written(
    rt: &(impl Abort + AllocGlobal),
    pairs: &[Pair],
    bytes: &[u8],
) -> Result<(), Fail> {
    let [first, second] = pairs else {
        return Err("not two pairs")?;
    };
    let first_size = size(&first.key, &first.change);
    let second_size = size(&second.key, &second.change);
    if !block_fits(1, first_size as usize, second_size) {
        return Err("the pairs fit one block")?;
    }
    let mut block = Vec::new(rt.alloc());
    write_block(pairs, &mut block)?;
    assert!(rt; block.as_slice() == bytes);
    Ok(())
}

/// Reads a pair of a block, which has to be this one.
fn is_read_as(
    rt: &(impl Abort + AllocGlobal),
    block: &[u8],
    index: u16,
    pair: &Pair,
) -> Result<(), Fail> {
    let Ok(count) = check_block(block) else {
        return Err("no block")?;
    };
    if index >= count {
        return Err("no such pair")?;
    }
    assert!(rt; lent_pair(block, index).key == pair.key.as_bytes());
    assert!(rt; pair_at(rt.alloc(), block, index)? == *pair);
    Ok(())
}

#[test]
fn a_block_has_these_bytes(rt: HostRuntime) -> Result<(), Fail> {
    let alloc = rt.alloc();
    let one = padded(alloc, ONE, UNIT)?;
    let mut pairs = Vec::new(alloc);
    pairs.push(put_of(alloc, b"a", b"1")?)?;
    one_is_written(&rt, pairs.as_slice(), one.as_slice())?;
    has_pairs(&rt, one.as_slice(), 1);
    let two = padded(alloc, TWO, UNIT)?;
    pairs.push(delete_of(alloc, b"b")?)?;
    two_are_written(&rt, pairs.as_slice(), two.as_slice())?;
    has_pairs(&rt, two.as_slice(), 2);
    is_read_as(&rt, two.as_slice(), 0, &put_of(alloc, b"a", b"1")?)?;
    is_read_as(&rt, two.as_slice(), 1, &delete_of(alloc, b"b")?)?;
    Ok(())
}

/// A pair of the longest key and value takes 17 units: 4 bytes, 66,565 of the pair, and 3,063 of padding.
#[test]
fn the_longest_pair_takes_seventeen_units(rt: HostRuntime) -> Result<(), Fail> {
    let alloc = rt.alloc();
    let key = Vec::from_elem(alloc, 0x6B, 1024)?;
    let value = Vec::from_elem(alloc, 0x76, 65535)?;
    let mut bytes = Vec::from_slice(alloc, b"\0\x01\0\x04\x04\0")?;
    bytes.extend_from_slice(key.as_slice())?;
    bytes.extend_from_slice(b"\0\0\xFF\xFF")?;
    bytes.extend_from_slice(value.as_slice())?;
    assert_eq!(rt; bytes.len(), 66_569);
    let block = padded(alloc, bytes.as_slice(), 69_632)?;
    let mut pairs = Vec::new(alloc);
    pairs.push(put_of(alloc, key.as_slice(), value.as_slice())?)?;
    one_is_written(&rt, pairs.as_slice(), block.as_slice())?;
    has_pairs(&rt, block.as_slice(), 1);
    is_wrong_at(
        &rt,
        padded(alloc, bytes.as_slice(), 65_536)?.as_slice(),
        66_569,
    );
    is_wrong_at(
        &rt,
        padded(alloc, bytes.as_slice(), 69_633)?.as_slice(),
        69_632,
    );
    Ok(())
}

#[test]
fn a_wrong_field_is_told_by_its_place(rt: HostRuntime) -> Result<(), Fail> {
    let alloc = rt.alloc();
    let rows: [(usize, &[u8], usize, usize); 26] = [
        (0, b"", 0, 0),
        (0, b"", 1, 0),
        (0, b"\0\0", 4096, 0),
        (0, b"\0\x01", 4096, 2),
        (0, b"\xFF\xFF", 4096, 2),
        (0, b"\x0B\xB8\x17\x72", 4096, 4096),
        (2, b"\0\x07", 4096, 2),
        (4, b"\0\x0F", 4096, 4),
        (6, b"\0\0", 4096, 6),
        (6, b"\x04\x01", 4096, 6),
        (9, b"\0\x01\0\0", 4096, 9),
        (4, b"\xFF\xFF\0\x01a\0\x01\0\0", 4096, 9),
        (9, b"\0\0\x10\0", 4096, 13),
        (9, b"\0\0\x10\0", 8192, 13),
        (16, b"a", 4096, 14),
        (16, b"`", 4096, 14),
        (16, b"a\0\x01\0\0", 4096, 14),
        (17, b"\0\x01\0\0", 4096, 17),
        (21, b"\x01", 4096, 21),
        (4095, b"\x01", 4096, 4095),
        (0, b"", 5, 4),
        (0, b"", 20, 17),
        (0, b"", 21, 21),
        (0, b"", 4095, 4095),
        (0, b"", 4097, 4096),
        (0, b"", 8192, 4096),
    ];
    for (at, bytes, len, wrong) in rows.iter() {
        is_wrong_at(&rt, changed(alloc, *at, bytes, *len)?.as_slice(), *wrong);
    }
    Ok(())
}

/// Two blocks after each other: a=1, then a deletion of b. The second one's key is wrong at place 4 of 4,096 bytes if the
/// last key is not below it.
#[test]
fn blocks_follow_one_another(rt: HostRuntime) -> Result<(), Fail> {
    let alloc = rt.alloc();
    blocks_read_back();
    let mut units = padded(alloc, ONE, UNIT)?;
    let next = padded(alloc, b"\0\x01\0\x04\0\x01b\xFF\xFF\xFF\xFF", UNIT)?;
    units.extend_from_slice(next.as_slice())?;
    let Ok(first) = read_block(FIRST_LIMITS, b"", units.as_slice()) else {
        return Err("no block at the front")?;
    };
    assert!(&rt;
        first.count == 1 && first.last == b"a".as_slice() && first.rest == next.as_slice()
    );
    let Ok(second) = read_block(FIRST_LIMITS, first.last, first.rest) else {
        return Err("no second block")?;
    };
    assert!(&rt; second.count == 1 && second.last == b"b".as_slice() && second.rest.is_empty());
    let Err(bad) = read_block(FIRST_LIMITS, b"b", first.rest) else {
        return Err("b is not above b")?;
    };
    assert_eq!(&rt; bad, BadField { left: 4092 });
    Ok(())
}

#[test]
fn a_pair_fits_up_to_a_whole_unit(rt: HostRuntime) -> Result<(), Fail> {
    assert!(&rt; block_fits(0, 0, 4092));
    assert!(&rt; !block_fits(0, 0, 4093));
    assert!(&rt; block_fits(1, 8, 4082));
    assert!(&rt; !block_fits(1, 8, 4083));
    assert!(&rt; !block_fits(usize::MAX, 0, 8));
    assert!(&rt; !block_fits(0, usize::MAX, 8));
    assert!(&rt; !block_fits(0, 0, u64::MAX));
    Ok(())
}
