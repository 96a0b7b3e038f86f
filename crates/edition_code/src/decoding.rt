//! An edition, read from a payload.
ghost use Rattle.std.specs.Prelude.{◌≡◌, length, Ok, IsOk, IfOk, IfErr};
ghost use Rattle.rdb_base.specs.PairFields.{GivesField};
ghost use Rattle.edition_code.specs.Answers.{GivesFields, GivesEdition, IfFieldMemory, IfMemory, IfBad};
ghost use Rattle.edition_code.specs.Answers.{IsSpelling, IsWithin, HasNoEdition};
ghost use Rattle.edition_code.specs.Reading.{numbers_at, count_at, edition_fields, edition_of, first_part_head};
ghost use Rattle.edition_code.specs.Editions.{greatest_base};

use crate::edition::Edition;
use crate::edition_error::EditionError;
use crate::edition_part::EditionPart;
use crate::field_error::FieldError;
use crate::format::PARTITIONS_MAX;
use crate::parts::parts;
use crate::split::split;
use rdb_base::BadField;
use rdb_base::fields::{u32_at, u64_at};
use std::alloc::Global;

/// An edition's number, and the next number to be drawn.
#[tactic(auto, unfolding(crate::specs::Reading::numbers_at))]
fn numbers(bytes: &[u8]) -> Result<((u64, u64), &[u8]), BadField>
    ensures { GivesField (λ x. ((x.0.0, x.0.1), x.1.now)) result (numbers_at bytes.now) }
{
    let (number, rest) = u64_at(bytes)?;
    if number == 0 {
        return Err(BadField { left: bytes.len() });
    }
    let (next, rest) = u64_at(rest)?;
    if number >= next {
        return Err(BadField { left: bytes.len() });
    }
    Ok(((number, next), rest))
}

/// How many partitions there are.
#[tactic(auto, unfolding(crate::specs::Reading::count_at))]
fn count(bytes: &[u8]) -> Result<(u32, &[u8]), BadField>
    ensures { GivesField (λ x. (x.0, x.1.now)) result (count_at bytes.now) }
{
    let (count, rest) = u32_at(bytes)?;
    if count == 0 {
        return Err(BadField { left: bytes.len() });
    }
    if count as usize > PARTITIONS_MAX {
        return Err(BadField { left: bytes.len() });
    }
    Ok((count, rest))
}

/// The greatest base number of these partitions.
fn greatest(parts: &[EditionPart]) -> u64
    ensures { result ≡ greatest_base parts.now }
{
    let mut most = 0;
    let mut rest = parts;
    'parts: while let Some((part, more)) = split(rest) {
        most = part.base.max(most);
        rest = more;
    }
    most
}

/// An edition, or how many bytes are left from its first wrong field on.
#[tactic(auto, unfolding(crate::specs::Reading::edition_fields, crate::specs::Reading::first_part_head))]
fn fields(alloc: Global, bytes: &[u8]) -> Result<Edition, FieldError>
    ensures exact { GivesFields (λ x. x) result (edition_fields bytes.now) }
    ensures memory { IfErr result (λ error. IfFieldMemory error (IsOk (first_part_head bytes.now))) }
{
    let ((number, next), after) = numbers(bytes)?;
    let (first, rest) = u64_at(after)?;
    let (count, rest) = count(rest)?;
    let (partitions, rest) = parts(alloc, count, next, rest)?;
    if !rest.is_empty() {
        return Err(FieldError::Bad(rest.len()));
    }
    if first > greatest(partitions.as_slice()) {
        return Err(FieldError::Bad(after.len()));
    }
    Ok(Edition {
        number,
        next,
        first,
        partitions,
    })
}

/// The edition that a payload is, or the place of its first wrong field. The payload may be any bytes, and as many as
/// they like.
///
/// The fields are tested in their order, each as soon as it is whole; the edition's number once `next` is whole too,
/// and `first` after all others. Memory is asked for only once the head of the first partition was found whole and
/// right, and then for no more than the bytes can have.
pub fn decode_edition(alloc: Global, payload: &[u8]) -> Result<Edition, EditionError>
    ensures exact { GivesEdition result (edition_of payload.now) }
    ensures within { IfErr result (λ error. IsWithin error (length payload.now)) }
    ensures spelled { IfOk result (λ edition. IsSpelling edition payload.now) }
    ensures none { IfErr result (λ error. IfBad error (HasNoEdition payload.now)) }
    ensures memory { IfErr result (λ error. IfMemory error (IsOk (first_part_head payload.now))) }
{
    match fields(alloc, payload) {
        Ok(edition) => Ok(edition),
        Err(FieldError::Bad(left)) => Err(EditionError::BadEdition {
            at: payload.len().saturating_sub(left),
        }),
        Err(FieldError::Memory) => Err(EditionError::Memory),
    }
}
