//! The files of runs and of indexes, read from left to right: each reader gives what is after its field.
ghost use Rattle.std.specs.Prelude.{◌≡◌, ◌++◌, ◌∷◌, [], length, IfOk};
ghost use Rattle.rdb_base.specs.PairFields.{GivesField};
ghost use Rattle.edition_code.specs.Answers.{GivesFields};
ghost use Rattle.edition_code.specs.Editions.{run_numbers, index_numbers};
ghost use Rattle.edition_code.specs.Reading.{file_number_at, are_zero, digest_at, run_at, runs_at, no_index_at, index_at};

use crate::field_error::FieldError;
use crate::file_numbers::FileNumbers;
use crate::format::{DIGEST_LEN, FILE_LEN};
use crate::index_field::IndexField;
use crate::run_field::RunField;
use crate::split::split;
use rdb_base::BadField;
use rdb_base::fields::{slice_at, u64_at};
use std::alloc::Global;

/// The number of a file, which is none of those before it.
#[tactic(auto, unfolding(crate::specs::Reading::file_number_at))]
fn file_number<'a>(
    next: u64,
    seen: &mut FileNumbers,
    bytes: &'a [u8],
) -> Result<(u64, &'a [u8]), FieldError>
    ensures exact { GivesFields (λ x. (x.0, x.1.now)) result (file_number_at next seen.old bytes.now) }
    ensures seen { IfOk result (λ x. seen.new ≡ seen.old ++ x.0 ∷ []) }
{
    let (number, rest) = u64_at(bytes)?;
    if number == 0 {
        return Err(FieldError::Bad(bytes.len()));
    }
    if number >= next {
        return Err(FieldError::Bad(bytes.len()));
    }
    if !seen.add(number)? {
        return Err(FieldError::Bad(bytes.len()));
    }
    Ok((number, rest))
}

/// A digest.
fn digest(bytes: &[u8]) -> Result<([u8; DIGEST_LEN], &[u8]), BadField>
    ensures { GivesField (λ x. (x.0, x.1.now)) result (digest_at bytes.now) }
{
    let (found, rest) = slice_at(DIGEST_LEN, bytes)?;
    let mut digest = [0; DIGEST_LEN];
    digest.copy_from_slice(found);
    Ok((digest, rest))
}

/// The file of a run.
#[tactic(auto, unfolding(crate::specs::Reading::run_at))]
fn run<'a>(
    next: u64,
    seen: &mut FileNumbers,
    bytes: &'a [u8],
) -> Result<(RunField, &'a [u8]), FieldError>
    ensures exact { GivesFields (λ x. (x.0, x.1.now)) result (run_at next seen.old bytes.now) }
    ensures seen { IfOk result (λ x. seen.new ≡ seen.old ++ x.0.number ∷ []) }
{
    let (number, rest) = file_number(next, seen, bytes)?;
    let (length, rest) = u64_at(rest)?;
    let (digest, rest) = digest(rest)?;
    Ok((
        RunField {
            number,
            length,
            digest,
        },
        rest,
    ))
}

/// The files of so many runs. Room is taken for no more than the bytes have.
pub(crate) fn runs<'a>(
    alloc: Global,
    count: u8,
    next: u64,
    seen: &mut FileNumbers,
    bytes: &'a [u8],
) -> Result<(Vec<RunField>, &'a [u8]), FieldError>
    ensures exact { GivesFields (λ x. (x.0.items, x.1.now)) result (runs_at count next seen.old bytes.now) }
    ensures seen { IfOk result (λ x. seen.new ≡ seen.old ++ run_numbers x.0.items) }
{
    let mut runs = Vec::with_capacity(alloc, (bytes.len() / FILE_LEN).min(count as usize))?;
    let mut rest = bytes;
    'runs: for done in 0..count {
        match run(next, seen, rest) {
            Ok((one, more)) => {
                let Ok(()) = runs.push(one) else {
                    return Err(FieldError::Memory);
                };
                rest = more;
            }
            Err(error) => return Err(error),
        }
    }
    Ok((runs, rest))
}

/// Whether each byte is 00.
fn all_zero(bytes: &[u8]) -> bool
    ensures { result ≡ are_zero bytes.now }
{
    let mut rest = bytes;
    'bytes: while let Some((byte, more)) = split(rest) {
        if *byte != 0 {
            return false;
        }
        rest = more;
    }
    true
}

/// No index, of which the number 0 was read: what is after its fields.
#[tactic(auto, unfolding(crate::specs::Reading::no_index_at))]
fn no_index(bytes: &[u8]) -> Result<&[u8], BadField>
    ensures { GivesField (λ x. x.now) result (no_index_at bytes.now) }
{
    let (length, rest) = u64_at(bytes)?;
    if length != 0 {
        return Err(BadField { left: bytes.len() });
    }
    let (digest, more) = digest(rest)?;
    if !all_zero(&digest) {
        return Err(BadField { left: rest.len() });
    }
    Ok(more)
}

/// The index of so many runs.
#[tactic(auto, unfolding(crate::specs::Reading::index_at))]
pub(crate) fn index<'a>(
    runs: u8,
    next: u64,
    seen: &mut FileNumbers,
    bytes: &'a [u8],
) -> Result<(Option<IndexField>, &'a [u8]), FieldError>
    ensures exact { GivesFields (λ x. (x.0, x.1.now)) result (index_at runs next seen.old bytes.now) }
    ensures seen { IfOk result (λ x. seen.new ≡ seen.old ++ index_numbers x.0) }
{
    let (number, rest) = u64_at(bytes)?;
    if number == 0 {
        let rest = no_index(rest)?;
        return Ok((None, rest));
    }
    if runs == 0 {
        return Err(FieldError::Bad(bytes.len()));
    }
    let (file, rest) = run(next, seen, bytes)?;
    let RunField {
        number,
        length,
        digest,
    } = file;
    let index = IndexField {
        number,
        length,
        digest,
    };
    Ok((Some(index), rest))
}
