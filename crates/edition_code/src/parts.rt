//! Partitions, read from left to right.
ghost use Rattle.std.specs.Prelude.{◌≡◌, ◌++◌, ◌∷◌, [], true, length, Ok, IsOk, IfOk, IfErr, OnOk};
ghost use Rattle.rdb_base.specs.PairFields.{GivesField, key_field_at};
ghost use Rattle.edition_code.specs.Answers.{GivesFields, IfFieldMemory, head_lent};
ghost use Rattle.edition_code.specs.Editions.{part_numbers, file_numbers};
ghost use Rattle.edition_code.specs.Reading.{first_low_at, next_low_at, low_at, part_head_at, part_at, parts_at};

use crate::edition_part::EditionPart;
use crate::field_error::FieldError;
use crate::file_numbers::FileNumbers;
use crate::files::{index, runs};
use crate::format::{LOW_MAX, PART_LEN, RUNS_MAX};
use crate::lent_head::LentHead;
use rdb_base::fields::{slice_at, u8_at, u16_at, u64_at};
use rdb_base::{BadField, NoMemory, compare_bytes};
use std::alloc::Global;

/// The bound of the first partition, which is empty.
#[tactic(auto, unfolding(crate::specs::Reading::first_low_at))]
fn first_low(bytes: &[u8]) -> Result<(&[u8], &[u8]), BadField>
    ensures { GivesField (λ x. (x.0.now, x.1.now)) result (first_low_at bytes.now) }
{
    let (len, rest) = u16_at(bytes)?;
    if len != 0 {
        return Err(BadField { left: bytes.len() });
    }
    Ok((&[], rest))
}

/// A bound of 1 to `LOW_MAX` bytes.
fn low_field(bytes: &[u8]) -> Result<(&[u8], &[u8]), BadField>
    ensures { GivesField (λ x. (x.0.now, x.1.now)) result (key_field_at LOW_MAX bytes.now) }
{
    let (len, rest) = u16_at(bytes)?;
    let len = len as usize;
    if len == 0 {
        return Err(BadField { left: bytes.len() });
    }
    if len > LOW_MAX {
        return Err(BadField { left: bytes.len() });
    }
    slice_at(len, rest)
}

/// The bound of a further partition, which is above the last one.
#[tactic(auto, unfolding(crate::specs::Reading::next_low_at))]
fn next_low<'a>(last: &[u8], bytes: &'a [u8]) -> Result<(&'a [u8], &'a [u8]), BadField>
    ensures { GivesField (λ x. (x.0.now, x.1.now)) result (next_low_at last.now bytes.now) }
{
    let (low, rest) = low_field(bytes)?;
    if !compare_bytes(last, low).is_lt() {
        return Err(BadField { left: bytes.len() });
    }
    Ok((low, rest))
}

/// The bound of a partition, which is the first one or comes after one with this bound.
fn low<'a>(is_first: bool, last: &[u8], bytes: &'a [u8]) -> Result<(&'a [u8], &'a [u8]), BadField>
    ensures { GivesField (λ x. (x.0.now, x.1.now)) result (low_at is_first last.now bytes.now) }
{
    if is_first {
        return first_low(bytes);
    }
    next_low(last, bytes)
}

/// The head of a partition, lent. It takes no memory.
#[tactic(auto, unfolding(crate::specs::Reading::part_head_at))]
pub(crate) fn part_head<'a>(
    is_first: bool,
    last: &[u8],
    bytes: &'a [u8],
) -> Result<(LentHead<'a>, &'a [u8]), BadField>
    ensures { GivesField (λ x. (head_lent x.0, x.1.now)) result (part_head_at is_first last.now bytes.now) }
{
    let (low, rest) = low(is_first, last, bytes)?;
    let (base, rest) = u64_at(rest)?;
    let (runs, more) = u8_at(rest)?;
    if runs as usize > RUNS_MAX {
        return Err(BadField { left: rest.len() });
    }
    Ok((LentHead { low, base, runs }, more))
}

/// A partition, and its bound, lent. Memory is asked for only once its head was found whole.
#[tactic(auto, unfolding(crate::specs::Reading::part_at))]
fn part<'a>(
    alloc: Global,
    next: u64,
    is_first: bool,
    last: &[u8],
    seen: &mut FileNumbers,
    bytes: &'a [u8],
) -> Result<(EditionPart, &'a [u8], &'a [u8]), FieldError>
    ensures exact { GivesFields (λ x. (x.0, x.2.now)) result (part_at next is_first last.now seen.old bytes.now) }
    ensures low { IfOk result (λ x. x.1.now ≡ x.0.low) }
    ensures seen { IfOk result (λ x. seen.new ≡ seen.old ++ part_numbers x.0) }
    ensures memory { IfErr result (λ error. IfFieldMemory error (IsOk (part_head_at is_first last.now bytes.now))) }
{
    let (head, rest) = part_head(is_first, last, bytes)?;
    let (runs, rest) = runs(alloc, head.runs, next, seen, rest)?;
    let (index, rest) = index(head.runs, next, seen, rest)?;
    let low = Vec::from_slice(alloc, head.low)?;
    Ok((
        EditionPart {
            low,
            base: head.base,
            runs,
            index,
        },
        head.low,
        rest,
    ))
}

/// How many numbers are kept as marks: those that were drawn, but no more than there are bytes.
fn marks(next: u64, len: usize) -> usize {
    next.min(len as u64) as usize
}

/// So many partitions. Once the first was found whole, room is taken for as many as the bytes can have.
pub(crate) fn parts<'a>(
    alloc: Global,
    count: u32,
    next: u64,
    bytes: &'a [u8],
) -> Result<(Vec<EditionPart>, &'a [u8]), FieldError>
    ensures exact { GivesFields (λ x. (x.0.items, x.1.now)) result (parts_at count next true [] [] bytes.now) }
    ensures memory { IfErr result (λ error. IfFieldMemory error (IsOk (part_head_at true [] bytes.now))) }
{
    let mut seen = FileNumbers::new(alloc, marks(next, bytes.len()));
    let mut parts = Vec::new(alloc);
    let mut last: &[u8] = &[];
    let mut rest = bytes;
    'parts: for done in 0..count {
        match part(alloc, next, done == 0, last, &mut seen, rest) {
            Ok((one, low, more)) => {
                let room = (more.len() / PART_LEN + 1).min((count - done) as usize);
                let Ok(()) = add_part(&mut parts, one, room) else {
                    return Err(FieldError::Memory);
                };
                last = low;
                rest = more;
            }
            Err(error) => return Err(error),
        }
    }
    Ok((parts, rest))
}

/// Adds a partition. The first one takes room for so many.
fn add_part(parts: &mut Vec<EditionPart>, part: EditionPart, room: usize) -> Result<(), NoMemory>
    ensures { OnOk result (parts.new.items ≡ parts.old.items ++ part ∷ []) }
{
    if parts.is_empty() {
        parts.reserve(room)?;
    }
    parts.push(part)?;
    Ok(())
}
