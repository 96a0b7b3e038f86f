//! What a builder writes, and where its blocks lie.
use crate::tests::made::{ONE_DIGEST, built, built_table, one, opened, run_of, run_of_four};
use crate::{BlockPlace, Table};
use remix_seek::{Runs, Share};
use std::alloc::Global;
use std::process::Abort;
use std::test::Fail;

#[test]
fn a_table_of_one_pair_has_these_bytes(rt: HostRuntime) -> Result<(), Fail> {
    let alloc = rt.alloc();
    let bytes = built(alloc, &run_of(alloc, &[(b"a", Some(b"1"))])?)?;
    assert_eq!(&rt; bytes.len(), 4114);
    assert!(&rt; bytes == one(alloc)?);
    Ok(())
}

#[test]
fn a_built_table_has_its_bytes_and_their_digest(rt: HostRuntime) -> Result<(), Fail> {
    let alloc = rt.alloc();
    let (table, digest) = built_table(alloc, &run_of(alloc, &[(b"a", Some(b"1"))])?)?;
    assert!(&rt; table.bytes() == one(alloc)?.as_slice());
    assert_eq!(&rt; digest, ONE_DIGEST);
    Ok(())
}

/// A pair of the longest key and value takes 17 units: 69,632 bytes, 34 of counts and 16 of the footer.
#[test]
fn the_longest_pair_is_read_back(rt: HostRuntime) -> Result<(), Fail> {
    let alloc = rt.alloc();
    let key = Vec::from_elem(alloc, b'k', 1024)?;
    let value = Vec::from_elem(alloc, b'v', 65535)?;
    let run = run_of(alloc, &[(key.as_slice(), Some(value.as_slice()))])?;
    let bytes = built(alloc, &run)?;
    assert_eq!(&rt; bytes.len(), 69_682);
    let table = opened(alloc, bytes.as_slice())?;
    assert_eq!(&rt; (table.len(), table.size()), (1, 66_565));
    Ok(())
}

/// How long the table of a=1 and of so many bytes at b is.
fn len_of_two(alloc: Global, value_len: usize) -> Result<usize, Fail> {
    let value = Vec::from_elem(alloc, b'v', value_len)?;
    let run = run_of(alloc, &[(b"a", Some(b"1")), (b"b", Some(value.as_slice()))])?;
    Ok(built(alloc, &run)?.len())
}

#[test]
fn a_pair_goes_into_the_open_block_while_it_fits(rt: HostRuntime) -> Result<(), Fail> {
    assert_eq!(&rt; len_of_two(rt.alloc(), 4075)?, 4114);
    assert_eq!(&rt; len_of_two(rt.alloc(), 4076)?, 8212);
    Ok(())
}

fn has_four(rt: &(impl Abort + AllocGlobal), table: &Table) {
    assert_eq!(rt; (table.len(), table.size()), (4, 5029));
}

#[test]
fn a_table_that_is_shared_is_equal(rt: HostRuntime) -> Result<(), Fail> {
    let alloc = rt.alloc();
    let (table, _) = built_table(alloc, &run_of_four(alloc)?)?;
    let shared = table.share(alloc)?;
    assert!(&rt; shared.bytes() == table.bytes());
    has_four(&rt, &shared);
    Ok(())
}

/// Where the blocks of the table of four pairs lie.
const BLOCKS: [BlockPlace; 3] = [
    BlockPlace {
        place: 0,
        count: 2,
        len: 4096,
    },
    BlockPlace {
        place: 4096,
        count: 1,
        len: 8192,
    },
    BlockPlace {
        place: 12_288,
        count: 1,
        len: 4096,
    },
];

#[test]
fn blocks_are_told_by_place_count_and_length(rt: HostRuntime) -> Result<(), Fail> {
    let alloc = rt.alloc();
    let table = opened(alloc, built(alloc, &run_of_four(alloc)?)?.as_slice())?;
    assert!(&rt; table.blocks(alloc)?.as_slice() == BLOCKS.as_slice());
    Ok(())
}
