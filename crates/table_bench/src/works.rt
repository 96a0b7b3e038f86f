//! The four works. Each gives a sum of what it made or read, so that nothing is left out.
ghost use Rattle.std.specs.Prelude.{◌≤◌, length};

use crate::load::{Load, Work};
use crate::made::mixed;
use rdb_base::{SortedRun, Steps};
use remix_seek::Runs;
use sha2::{Digest, Sha256};
use std::alloc::Global;
use std::sync::ledger::Ledger;
use table_file::{Table, TableBuilder};

/// The sum of a load's work, beginning with the first bytes of its table's digest. None if it runs out of memory.
pub(crate) fn sum_of<L: Ledger>(
    alloc: Global,
    load: &Load,
    run: &SortedRun,
    steps: &mut Steps<L>,
) -> Option<u64>
    requires { 1 ≤ length run.now }
{
    let bytes = TableBuilder::build(alloc, run).ok()?;
    let digest = Sha256::digest(bytes.as_slice());
    let sum = match load.work {
        Work::Build => sum_of_builds(alloc, load.times, run)?,
        Work::Hash => sum_of_hashes(alloc, load.times, bytes.as_slice())?,
        Work::Open => sum_of_opens(alloc, load.times, bytes.as_slice(), &digest)?,
        Work::Read => {
            let table = Table::open(alloc, bytes, &digest).ok()?;
            sum_of_reads(load.times, &table, steps)
        }
    };
    Some(sum.wrapping_add(front_of(&digest)))
}

/// The lengths of so many tables of the run.
fn sum_of_builds(alloc: Global, times: u32, run: &SortedRun) -> Option<u64>
    requires { 1 ≤ length run.now }
{
    let mut sum: u64 = 0;
    for _time in 0..times {
        let bytes = TableBuilder::build(alloc, run).ok()?;
        sum = sum.wrapping_add(bytes.len() as u64);
    }
    Some(sum)
}

/// The first bytes of so many digests of copies.
fn sum_of_hashes(alloc: Global, times: u32, bytes: &[u8]) -> Option<u64> {
    let mut sum: u64 = 0;
    for _time in 0..times {
        let copy = Vec::from_slice(alloc, bytes).ok()?;
        sum = sum.wrapping_add(front_of(&Sha256::digest(copy.as_slice())));
    }
    Some(sum)
}

/// The numbers of pairs of so many tables, each opened from a copy.
fn sum_of_opens(alloc: Global, times: u32, bytes: &[u8], digest: &[u8; 32]) -> Option<u64> {
    let mut sum: u64 = 0;
    for _time in 0..times {
        let copy = Vec::from_slice(alloc, bytes).ok()?;
        let table = Table::open(alloc, copy, digest).ok()?;
        sum = sum.wrapping_add(table.len() as u64);
    }
    Some(sum)
}

/// So many pairs at places that look random: the last byte of the key, the first of the value, and their lengths.
fn sum_of_reads<L: Ledger>(times: u32, table: &Table, steps: &mut Steps<L>) -> u64 {
    let mut sum: u64 = 0;
    let count = table.len();
    for time in 0..times {
        let Some(place) = mixed(time as u64).checked_rem(count as u64) else {
            return sum;
        };
        sum = sum.wrapping_add(sum_of_pair(place as u32, table, steps));
    }
    sum
}

fn sum_of_pair<L: Ledger>(place: u32, table: &Table, steps: &mut Steps<L>) -> u64 {
    if place >= table.len() {
        return 0;
    }
    let key = table.lent_key(place, steps);
    let value = table.lent_value(place).unwrap_or(&[]);
    let ends = byte_of(key.last()).wrapping_add(byte_of(value.first()));
    ends.wrapping_add(key.len() as u64)
        .wrapping_add(value.len() as u64)
}

fn byte_of(byte: Option<&u8>) -> u64 {
    match byte {
        Some(byte) => *byte as u64,
        None => 0,
    }
}

/// The first eight bytes of a digest as a number.
fn front_of(digest: &[u8; 32]) -> u64 {
    u64::from_be_bytes([
        digest[0], digest[1], digest[2], digest[3], digest[4], digest[5], digest[6], digest[7],
    ])
}
