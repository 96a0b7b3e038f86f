//! Commits over strips in memory, up to a full strip and past it, and each refusal. Crashes stand in `crashes`.
ghost use Rattle.std.specs.Prelude.{◌<◌};
ghost use Rattle.edition_code.specs.Editions.{IsEdition};

mod crashes;

use crate::{CommitError, Manifest, ManifestError};
use disk_model::{DeviceError, MANIFEST_A, MANIFEST_B, MemoryStrip, STRIP_MAX, Strip};
use edition_code::{Edition, decode_edition};
use rdb_base::NUMBER_MAX;
use std::alloc::Global;
use std::process::Abort;
use std::test::Fail;

/// A strip with edition 1, whose next number is 2: one partition of all keys, without a run, and a closed gate.
const ONE: &[u8] =
    b"\xA5\0\0\0\x57\0\0\0\0\0\0\0\x01\0\0\0\0\0\0\0\x02\0\0\0\0\0\0\0\0\0\0\0\x01\0\0\0\0\0\0\0\0\0\0\0\0\0\0\0\0\0\0\0\0\0\0\0\0\0\0\0\0\0\0\0\0\0\0\0\0\0\0\0\0\0\0\0\0\0\0\0\0\0\0\0\0\0\0\0\0\0\0\0\0";

/// The bytes of the frame of such an edition.
const FRAME: usize = 92;

/// A strip with a frame that is no edition.
const WRONG: &[u8] = b"\xA5\0\0\0\x01x\0";

/// A strip with such a frame, and no whole one after it though a gate is open.
const TORN: &[u8] = b"\xA5\0\0\0\x01x\xA5";

/// A strip with such a frame, and then one with the first eight bytes of an edition.
const CUT: &[u8] = b"\xA5\0\0\0\x01x\xA5\0\0\0\x08\0\0\0\0\0\0\0\x01\0";

/// The payload of an edition with these numbers.
fn payload_of(alloc: Global, number: u64, next: u64) -> Result<Vec<u8>, Fail> {
    let mut bytes = Vec::from_slice(alloc, &number.to_be_bytes())?;
    bytes.extend_from_slice(&next.to_be_bytes())?;
    bytes.extend_from_slice(&[0; 11])?;
    bytes.extend_from_slice(&[1])?;
    bytes.extend_from_slice(&[0; 59])?;
    Ok(bytes)
}

fn strip_of(alloc: Global, device: u8, bytes: &[u8], failing: u64) -> Result<MemoryStrip, Fail> {
    let device = device.min(STRIP_MAX);
    let bytes = Vec::from_slice(alloc, bytes)?;
    let failing = Vec::from_slice(alloc, &[failing])?;
    Ok(MemoryStrip::new(alloc, device, bytes, failing)?)
}

fn open<S: Strip>(
    alloc: Global,
    first: S,
    second: S,
) -> Result<Manifest<S>, (S, S, ManifestError)> {
    let (manifest, _edition) = Manifest::open(alloc, first, second)?;
    Ok(manifest)
}

fn back<S: Strip>(manifest: Manifest<S>) -> (S, S) {
    manifest.into_strips()
}

/// The numbers of the last edition and of the newest.
fn numbers_of<S: Strip>(manifest: &Manifest<S>) -> (u64, u64) {
    (manifest.last().number, manifest.newest_number())
}

fn has_numbers<S: Strip>(manifest: &Manifest<S>, last: u64, newest: u64) -> bool {
    numbers_of(manifest) == (last, newest)
}

/// The manifest of two strips with these bytes, of which these calls fail.
fn opened(
    alloc: Global,
    first: (&[u8], u64),
    second: (&[u8], u64),
) -> Result<Manifest<MemoryStrip>, Fail> {
    let first = strip_of(alloc, MANIFEST_A, first.0, first.1)?;
    let second = strip_of(alloc, MANIFEST_B, second.0, second.1)?;
    match open(alloc, first, second) {
        Ok(manifest) => Ok(manifest),
        Err(_refused) => Err("the strips are refused")?,
    }
}

/// How a commit ends.
#[derive(Clone, Copy, PartialEq, Eq)]
enum End {
    Done,
    Fault(u8),
    Spent(u64),
    Memory,
}

fn end_of(answer: Result<(), CommitError>) -> End {
    match answer {
        Ok(()) => End::Done,
        Err(CommitError::Fault(unit)) => End::Fault(unit.device()),
        Err(CommitError::NumbersSpent { next }) => End::Spent(next),
        Err(CommitError::Memory) => End::Memory,
    }
}

fn end_of_settle(answer: Result<(), DeviceError>) -> End {
    match answer {
        Ok(()) => End::Done,
        Err(DeviceError::Fault(unit)) => End::Fault(unit.device()),
        Err(DeviceError::Memory) => End::Memory,
    }
}

fn commit_edition<S: Strip>(
    alloc: Global,
    manifest: &mut Manifest<S>,
    edition: Edition,
) -> Result<(), CommitError>
    requires grammar { IsEdition edition }
    requires above { manifest.old.newest.number < edition.number }
{
    manifest.commit(alloc, edition)
}

fn settle<S: Strip>(alloc: Global, manifest: &mut Manifest<S>) -> Result<(), DeviceError> {
    manifest.settle(alloc)
}

/// Commits an edition with these numbers.
fn commit<S: Strip>(
    alloc: Global,
    manifest: &mut Manifest<S>,
    number: u64,
    next: u64,
) -> Result<End, Fail> {
    let payload = payload_of(alloc, number, next)?;
    let Ok(edition) = decode_edition(alloc, payload.as_slice()) else {
        return Err("it is no edition")?;
    };
    if edition.number <= manifest.newest_number() {
        return Err("the number is not new")?;
    }
    Ok(end_of(commit_edition(alloc, manifest, edition)))
}

/// Whether the edition of a number, with the next one, ends so.
fn commits<S: Strip>(
    alloc: Global,
    manifest: &mut Manifest<S>,
    number: u64,
    end: End,
) -> Result<bool, Fail> {
    Ok(commit(alloc, manifest, number, number.saturating_add(1))? == end)
}

fn holds(strip: &MemoryStrip, bytes: &[u8]) -> bool {
    strip.as_bytes() == bytes
}

fn hold(manifest: Manifest<MemoryStrip>, first_bytes: &[u8], second_bytes: &[u8]) -> bool {
    let (first, second) = back(manifest);
    holds(&first, first_bytes) && holds(&second, second_bytes)
}

fn has_len(strip: &MemoryStrip, len: usize) -> bool {
    strip.as_bytes().len() == len
}

fn have_lens(manifest: Manifest<MemoryStrip>, first_len: usize, second_len: usize) -> bool {
    let (first, second) = back(manifest);
    has_len(&first, first_len) && has_len(&second, second_len)
}

#[test]
fn the_first_edition_is_one_frame_of_the_first_strip(rt: HostRuntime) -> Result<(), Fail> {
    let mut manifest = opened(rt.alloc(), (b"", 99), (b"", 99))?;
    assert!(rt; has_numbers(&manifest, 0, 0));
    assert!(rt; commits(rt.alloc(), &mut manifest, 1, End::Done)?);
    assert!(rt; has_numbers(&manifest, 1, 1));
    assert!(rt; hold(manifest, ONE, b""));
    Ok(())
}

/// A strip with edition 2.
fn two(alloc: Global) -> Result<Vec<u8>, Fail> {
    let mut bytes = Vec::from_slice(alloc, b"\xA5\0\0\0\x57")?;
    bytes.extend_from_slice(payload_of(alloc, 2, 3)?.as_slice())?;
    bytes.push(0)?;
    Ok(bytes)
}

#[test]
fn the_greater_number_counts_and_the_next_edition_stands_after_it(
    rt: HostRuntime,
) -> Result<(), Fail> {
    let two = two(rt.alloc())?;
    let mut manifest = opened(rt.alloc(), (ONE, 99), (two.as_slice(), 99))?;
    assert!(rt; has_numbers(&manifest, 2, 2));
    assert!(rt; commits(rt.alloc(), &mut manifest, 3, End::Done)?);
    assert!(rt; have_lens(manifest, FRAME + 1, 2 * FRAME + 1));
    Ok(())
}

/// A strip with a frame of zeros and edition 2, whose frames end at this place.
fn filled(alloc: Global, end: u32) -> Result<Vec<u8>, Fail> {
    let len = end.saturating_sub(FRAME as u32 + 5);
    let zeros = vec![in alloc; 0u8; len as usize]?;
    let mut bytes = Vec::from_slice(alloc, &[0xA5])?;
    bytes.extend_from_slice(&len.to_be_bytes())?;
    bytes.extend_from_slice(zeros.as_slice())?;
    bytes.extend_from_slice(two(alloc)?.as_slice())?;
    Ok(bytes)
}

/// The strips after editions 3 and 4 have these lengths, where the first one's frames ended at this place, and this call
/// of it fails.
fn grow_to(
    rt: &(impl Abort + AllocGlobal),
    end: u32,
    call: u64,
    third: End,
    lens: (usize, usize),
) -> Result<(), Fail> {
    let alloc = rt.alloc();
    let bytes = filled(alloc, end)?;
    let mut manifest = opened(alloc, (bytes.as_slice(), call), (ONE, 99))?;
    assert!(rt; commits(alloc, &mut manifest, 3, third)?);
    assert!(rt; commits(alloc, &mut manifest, 4, End::Done)?);
    assert!(rt; have_lens(manifest, lens.0, lens.1));
    Ok(())
}

/// A strip is full where its frames end at 1,048,576 or after it.
#[test]
fn past_a_full_strip_the_other_one_is_written(rt: HostRuntime) -> Result<(), Fail> {
    let one_more = (1_048_575 + FRAME + 1, FRAME + 1);
    grow_to(&rt, 1_048_575, 99, End::Done, one_more)?;
    grow_to(&rt, 1_048_576, 99, End::Done, (1_048_577, 2 * FRAME + 1))
}

/// Edition 3 fails at the first strip's fourth call. Once it is settled there, edition 4 finds that strip full.
#[test]
fn an_edition_in_doubt_may_fill_its_strip(rt: HostRuntime) -> Result<(), Fail> {
    let one_more = (1_048_575 + FRAME + 1, FRAME + 1);
    grow_to(&rt, 1_048_575, 3, End::Fault(MANIFEST_A), one_more)
}

#[test]
fn without_a_number_left_nothing_is_committed(rt: HostRuntime) -> Result<(), Fail> {
    let mut manifest = opened(rt.alloc(), (ONE, 99), (b"", 99))?;
    let last = commit(rt.alloc(), &mut manifest, 2, NUMBER_MAX)?;
    assert!(rt; last == End::Done);
    assert!(rt;
        commits(
            rt.alloc(),
            &mut manifest,
            3,
            End::Spent(4_611_686_018_427_387_904)
        )?
    );
    assert!(rt; has_numbers(&manifest, 2, 2));
    assert!(rt; have_lens(manifest, 2 * FRAME + 1, 0));
    Ok(())
}

/// Whether a settle ends so.
fn settles<S: Strip>(alloc: Global, manifest: &mut Manifest<S>, end: End) -> bool {
    end_of_settle(settle(alloc, manifest)) == end
}

/// Edition 2 fails at the first strip's fourth call, and the settle after it succeeds.
#[test]
fn an_edition_in_doubt_is_settled(rt: HostRuntime) -> Result<(), Fail> {
    let mut manifest = opened(rt.alloc(), (ONE, 3), (b"", 99))?;
    assert!(rt; settles(rt.alloc(), &mut manifest, End::Done));
    assert!(rt; commits(rt.alloc(), &mut manifest, 2, End::Fault(MANIFEST_A))?);
    assert!(rt; has_numbers(&manifest, 1, 2));
    assert!(rt; settles(rt.alloc(), &mut manifest, End::Done));
    assert!(rt; has_numbers(&manifest, 1, 2));
    assert!(rt; commits(rt.alloc(), &mut manifest, 3, End::Done)?);
    assert!(rt; have_lens(manifest, 3 * FRAME + 1, 0));
    Ok(())
}

fn printed(alloc: Global, error: &ManifestError) -> Result<String, Fail> {
    Ok(format!(in alloc; "{error}")?)
}

/// Why these strips are refused, as it is printed.
fn refusal(alloc: Global, first: &[u8], second: &[u8]) -> Result<String, Fail> {
    let first = strip_of(alloc, MANIFEST_A, first, 99)?;
    let second = strip_of(alloc, MANIFEST_B, second, 99)?;
    match open(alloc, first, second) {
        Ok(_manifest) => Err("they are opened")?,
        Err((_first, _second, error)) => printed(alloc, &error),
    }
}

fn is_refused(
    rt: &(impl Abort + AllocGlobal),
    first: &[u8],
    second: &[u8],
    wanted: &str,
) -> Result<(), Fail> {
    let refused = refusal(rt.alloc(), first, second)?;
    assert_eq!(rt; refused.as_str(), wanted);
    Ok(())
}

#[test]
fn a_torn_header_comes_before_a_wrong_edition(rt: HostRuntime) -> Result<(), Fail> {
    is_refused(&rt, TORN, TORN, "TornHeader strip 8 at 6")?;
    is_refused(&rt, WRONG, TORN, "TornHeader strip 9 at 6")
}

#[test]
fn the_last_frame_of_each_strip_is_an_edition(rt: HostRuntime) -> Result<(), Fail> {
    is_refused(&rt, WRONG, WRONG, "BadManifest strip 8 at 5")?;
    is_refused(&rt, b"", WRONG, "BadManifest strip 9 at 5")?;
    is_refused(&rt, CUT, b"", "BadManifest strip 8 at 19")?;
    is_refused(&rt, ONE, CUT, "BadManifest strip 9 at 19")
}

/// Edition 1 after a frame of one byte.
fn later_one(alloc: Global) -> Result<Vec<u8>, Fail> {
    let mut bytes = Vec::from_slice(alloc, b"\xA5\0\0\0\x01x")?;
    bytes.extend_from_slice(ONE)?;
    Ok(bytes)
}

#[test]
fn of_equal_numbers_the_second_strips_frame_is_wrong(rt: HostRuntime) -> Result<(), Fail> {
    let later = later_one(rt.alloc())?;
    is_refused(&rt, ONE, ONE, "BadManifest strip 9 at 0")?;
    is_refused(&rt, later.as_slice(), ONE, "BadManifest strip 9 at 0")?;
    is_refused(&rt, ONE, later.as_slice(), "BadManifest strip 9 at 6")
}
