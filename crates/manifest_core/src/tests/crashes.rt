//! Each device call fails alone, and a crash after it leaves each of its images.
use crate::Manifest;
use crate::tests::{End, ONE, back, commit, filled, numbers_of, open, strip_of};
use disk_model::{MANIFEST_A, MANIFEST_B, MemoryStrip, Strip};
use std::alloc::Global;
use std::process::Abort;
use std::test::Fail;

/// Two strips after some commits, and between which numbers the edition lies that they stand for.
#[derive(Drop)]
struct Stopped {
    first: MemoryStrip,
    second: MemoryStrip,
    least: u64,
    most: u64,
}

/// Commits the next four editions, until one is refused.
fn commit_some<S: Strip>(alloc: Global, manifest: &mut Manifest<S>, last: u64) -> Result<(), Fail> {
    for more in 1..5u64 {
        let number = last.saturating_add(more);
        let end = commit(alloc, manifest, number, number.saturating_add(1))?;
        if !matches!(end, End::Done) {
            return Ok(());
        }
    }
    Ok(())
}

fn stop(alloc: Global, mut manifest: Manifest<MemoryStrip>, last: u64) -> Result<Stopped, Fail> {
    commit_some(alloc, &mut manifest, last)?;
    let (least, most) = numbers_of(&manifest);
    let (first, second) = back(manifest);
    Ok(Stopped {
        first,
        second,
        least,
        most,
    })
}

/// Opens two strips that stand for the edition of this number, and commits the next ones.
fn run(alloc: Global, first: MemoryStrip, second: MemoryStrip, last: u64) -> Result<Stopped, Fail> {
    match open(alloc, first, second) {
        Ok(manifest) => stop(alloc, manifest, last),
        Err((first, second, _error)) => Ok(Stopped {
            first,
            second,
            least: last,
            most: last,
        }),
    }
}

/// The number of the edition that these strips stand for after a crash.
fn number_after(
    alloc: Global,
    first: MemoryStrip,
    second: MemoryStrip,
    pick: u64,
) -> Result<u64, Fail> {
    match open(alloc, first.crash(pick), second.crash(pick)) {
        Ok(manifest) => Ok(numbers_of(&manifest).0),
        Err(_refused) => Err("the strips are a manifest's")?,
    }
}

/// How many calls failed.
fn faults_of(stopped: &Stopped) -> u64 {
    stopped
        .first
        .faults()
        .saturating_add(stopped.second.faults())
}

/// One call failed, and the edition that such a crash leaves is one of those that may be.
fn leaves_one(alloc: Global, stopped: Stopped, pick: u64) -> Result<bool, Fail> {
    let failed = faults_of(&stopped) == 1;
    let (least, most) = (stopped.least, stopped.most);
    let number = number_after(alloc, stopped.first, stopped.second, pick)?;
    Ok(failed && least <= number && number <= most)
}

/// So it is after these calls of the strips, where both were empty.
fn leaves_one_of_new(
    alloc: Global,
    of_first: u64,
    of_second: u64,
    pick: u64,
) -> Result<bool, Fail> {
    let first = strip_of(alloc, MANIFEST_A, b"", of_first)?;
    let second = strip_of(alloc, MANIFEST_B, b"", of_second)?;
    let stopped = run(alloc, first, second, 0)?;
    leaves_one(alloc, stopped, pick)
}

/// Three calls open the first strip, four clear it, and four settle each of four editions.
#[test]
fn a_fault_and_a_crash_leave_an_edition_that_may_be(rt: HostRuntime) -> Result<(), Fail> {
    for run in 0..92u64 {
        assert!(rt; leaves_one_of_new(rt.alloc(), run / 4, 99, run)?);
    }
    Ok(())
}

/// Three calls open the second strip, and no other is made of it until the first one is full.
#[test]
fn a_fault_at_the_second_opening_leaves_an_edition_that_may_be(
    rt: HostRuntime,
) -> Result<(), Fail> {
    for run in 0..12u64 {
        assert!(rt; leaves_one_of_new(rt.alloc(), 99, run / 4, run)?);
    }
    Ok(())
}

/// So it is after this call of the second strip, where the first one is full.
fn leaves_one_of_full(alloc: Global, call: u64, pick: u64) -> Result<bool, Fail> {
    let bytes = filled(alloc, 1_048_576)?;
    let first = strip_of(alloc, MANIFEST_A, bytes.as_slice(), 99)?;
    let second = strip_of(alloc, MANIFEST_B, ONE, call)?;
    let stopped = run(alloc, first, second, 2)?;
    leaves_one(alloc, stopped, pick)
}

/// The fourth to the seventh call clear the second strip for edition 3.
#[test]
fn a_fault_past_a_full_strip_leaves_an_edition_that_may_be(rt: HostRuntime) -> Result<(), Fail> {
    for run in 12..28u64 {
        assert!(rt; leaves_one_of_full(rt.alloc(), run / 4, run)?);
    }
    Ok(())
}
