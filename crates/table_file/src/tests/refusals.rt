//! What is refused, and at which place.
use crate::fields::front;
use crate::reading::wrong_place;
use crate::tests::made::{ONE_DIGEST, built, is_wrong_at, one, run_of_four};
use crate::{Table, TableError};
use std::alloc::Global;
use std::test::Fail;

/// The SHA-256 of no bytes.
const NONE_DIGEST: [u8; 32] = [
    0xE3, 0xB0, 0xC4, 0x42, 0x98, 0xFC, 0x1C, 0x14, 0x9A, 0xFB, 0xF4, 0xC8, 0x99, 0x6F, 0xB9, 0x24,
    0x27, 0xAE, 0x41, 0xE4, 0x64, 0x9B, 0x93, 0x4C, 0xA4, 0x95, 0x99, 0x1B, 0x78, 0x52, 0xB8, 0x55,
];

#[test]
fn another_digest_is_told_before_the_form(rt: HostRuntime) -> Result<(), Fail> {
    let alloc = rt.alloc();
    match Table::open(alloc, Vec::new(alloc), &ONE_DIGEST) {
        Ok(_table) => Err("no table")?,
        Err(error) => {
            assert_eq!(&rt;
                error,
                TableError::WrongDigest {
                    kept: ONE_DIGEST,
                    found: NONE_DIGEST,
                }
            );
            Ok(())
        }
    }
}

#[test]
fn the_kept_digest_opens(rt: HostRuntime) -> Result<(), Fail> {
    let alloc = rt.alloc();
    match Table::open(alloc, one(alloc)?, &ONE_DIGEST) {
        Ok(table) => {
            assert!(&rt; table.bytes() == one(alloc)?.as_slice());
            Ok(())
        }
        Err(_) => Err("a table")?,
    }
}

/// Lengths of fronts of the table of a=1, and their first wrong places.
const SHORT: &[(usize, usize)] = &[(0, 0), (15, 0), (16, 0), (4113, 4097)];

#[test]
fn a_short_table_is_wrong_at_its_magic(rt: HostRuntime) -> Result<(), Fail> {
    let whole = one(rt.alloc())?;
    for row in SHORT.iter() {
        let (len, place) = *row;
        is_wrong_at(&rt, front(len, whole.as_slice()), place)?;
    }
    Ok(())
}

/// Bytes of the table of a=1 from a place on, and the first wrong place that they make.
const WRONG: &[(usize, &[u8], usize)] = &[
    (4098, b"S", 4098),
    (4101, b"X", 4098),
    (4102, b"\x01", 4102),
    (4103, b"\x02", 4102),
    (4104, b"\x01", 4104),
    (4105, b"\x01", 4104),
    (4106, b"\x01", 4106),
    (4109, b"\0", 4106),
    (4109, b"\x02", 4106),
    (4110, b"\x01", 4110),
    (4113, b"\0", 4110),
    (4113, b"\x02", 4110),
    (4097, b"\x02", 4110),
    (0, b"\0\x02", 4096),
    (4114, b"\0", 4099),
];

/// The table of a=1 with other bytes from this place on.
fn changed(alloc: Global, at: usize, bytes: &[u8]) -> Result<Vec<u8>, Fail> {
    let whole = one(alloc)?;
    let (front, rest) = whole.as_slice().split_at(at.min(whole.len()));
    let (_, back) = rest.split_at(bytes.len().min(rest.len()));
    let mut made = Vec::from_slice(alloc, front)?;
    made.extend_from_slice(bytes)?;
    made.extend_from_slice(back)?;
    Ok(made)
}

#[test]
fn a_wrong_field_is_told_by_its_place(rt: HostRuntime) -> Result<(), Fail> {
    for row in WRONG.iter() {
        let (at, bytes, place) = *row;
        is_wrong_at(&rt, changed(rt.alloc(), at, bytes)?.as_slice(), place)?;
    }
    Ok(())
}

#[test]
fn each_proper_front_is_refused(rt: HostRuntime) -> Result<(), Fail> {
    let alloc = rt.alloc();
    let bytes = built(alloc, &run_of_four(alloc)?)?;
    for len in 0..bytes.len() {
        let (front, _) = bytes.as_slice().split_at(len);
        assert!(&rt; wrong_place(front).is_some(), "{len}");
    }
    Ok(())
}
