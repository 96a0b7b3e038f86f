//! The fields of a block, read from left to right: each reader gives what is after its field.
ghost use Rattle.std.specs.Prelude.{◌≡◌, ◌≤◌, ◌<◌, ◌^◌, length, take, drop, Ok};
ghost use Rattle.std.specs.Int.{w8, w16};
ghost use Rattle.rdb_base.specs.PairFields.{GivesField, key_field_at};
ghost use Rattle.block_code.specs.Blocks.{head_size};
ghost use Rattle.block_code.specs.Answers.{ends_lent, pair_lent};
ghost use Rattle.block_code.specs.Reading.{number_is, numbers_at, zeros_at};
ghost use Rattle.block_code.specs.Reading.{offsets_at, next_pair_at, pairs_at, ends_of};

use crate::ends::BlockEnds;
use crate::format::NUMBER_LEN;
use rdb_base::fields::{slice_at, u8_at, u16_at};
use rdb_base::{BadField, PairField, PairLimits, compare_bytes, read_pair};

/// What is after so many bytes, or nothing where there are fewer.
pub(crate) fn after(count: usize, bytes: &[u8]) -> &[u8]
    ensures { result.now ≡ drop count bytes.now }
{
    let (_, rest) = bytes.split_at(count.min(bytes.len()));
    rest
}

/// The first so many bytes, or all where there are fewer.
pub(crate) fn front(count: usize, bytes: &[u8]) -> &[u8]
    ensures { result.now ≡ take count bytes.now }
{
    let (front, _) = bytes.split_at(count.min(bytes.len()));
    front
}

/// The place of the first pair of a block of so many.
pub(crate) fn first_place(count: u16) -> usize
    ensures { result ≡ head_size count }
{
    NUMBER_LEN + NUMBER_LEN * count as usize
}

/// An offset that has to be this place.
fn offset_is(place: usize, bytes: &[u8]) -> Result<&[u8], BadField>
    ensures { GivesField (λ x. x.now) result (number_is w16 place bytes.now) }
{
    let (offset, rest) = u16_at(bytes)?;
    if offset as usize != place {
        return Err(BadField { left: bytes.len() });
    }
    Ok(rest)
}

/// So many numbers of two bytes, which may be any.
fn numbers_of(count: u16, bytes: &[u8]) -> Result<&[u8], BadField>
    ensures { GivesField (λ x. x.now) result (numbers_at count bytes.now) }
{
    let mut rest = bytes;
    'numbers: for done in 0..count {
        match u16_at(rest) {
            Ok((_, more)) => rest = more,
            Err(bad) => return Err(bad),
        }
    }
    Ok(rest)
}

/// So many offsets: the first is the place of the first pair, and each next one is the end of the pair before.
///
/// After a pair that is not whole the further offsets only have to be there.
pub(crate) fn offsets_of<'a>(
    limits: PairLimits,
    count: u16,
    offsets: &'a [u8],
    pairs: &[u8],
) -> Result<&'a [u8], BadField>
    ensures { GivesField (λ x. x.now) result (offsets_at limits count (head_size count) offsets.now pairs.now) }
{
    let mut place = first_place(count);
    let mut rest = offsets;
    let mut next = pairs;
    'offsets: for done in 0..count {
        match offset_is(place, rest) {
            Ok(more) => rest = more,
            Err(bad) => return Err(bad),
        }
        match read_pair(limits, next) {
            Ok((_, more)) => {
                place += next.len() - more.len();
                next = more;
            }
            Err(_) => return numbers_of(count - done - 1, rest),
        }
    }
    Ok(rest)
}

/// A key of 1 to `key_max` bytes after its length, and the bytes after it.
fn key_of(key_max: usize, bytes: &[u8]) -> Result<(&[u8], &[u8]), BadField>
    ensures { GivesField (λ x. (x.0.now, x.1.now)) result (key_field_at key_max bytes.now) }
{
    let (len, rest) = u16_at(bytes)?;
    let len = len as usize;
    if len == 0 {
        return Err(BadField { left: bytes.len() });
    }
    if len > key_max {
        return Err(BadField { left: bytes.len() });
    }
    slice_at(len, rest)
}

/// A pair whose key is above the last one, lent.
#[tactic(auto, unfolding(crate::specs::Reading::next_pair_at))]
fn next_pair<'a>(
    limits: PairLimits,
    last: &[u8],
    bytes: &'a [u8],
) -> Result<(PairField<'a>, &'a [u8]), BadField>
    ensures { GivesField (λ x. (pair_lent x.0, x.1.now)) result (next_pair_at limits last.now bytes.now) }
{
    let (key, _) = key_of(limits.key_max, bytes)?;
    if !compare_bytes(last, key).is_lt() {
        return Err(BadField { left: bytes.len() });
    }
    read_pair(limits, bytes)
}

/// So many pairs whose keys rise above the last one: the last of their keys, and what is after them.
pub(crate) fn pairs_of<'a>(
    limits: PairLimits,
    count: u16,
    last: &'a [u8],
    bytes: &'a [u8],
) -> Result<BlockEnds<'a>, BadField>
    ensures { GivesField ends_lent result (ends_of last.now (pairs_at limits count last.now bytes.now)) }
{
    let mut key = last;
    let mut rest = bytes;
    'pairs: for done in 0..count {
        match next_pair(limits, key, rest) {
            Ok((pair, more)) => {
                key = pair.key;
                rest = more;
            }
            Err(bad) => return Err(bad),
        }
    }
    Ok(BlockEnds {
        count,
        last: key,
        rest,
    })
}

/// A byte 00.
fn zero_of(bytes: &[u8]) -> Result<&[u8], BadField>
    ensures { GivesField (λ x. x.now) result (number_is w8 0 bytes.now) }
{
    let (byte, rest) = u8_at(bytes)?;
    if byte != 0 {
        return Err(BadField { left: bytes.len() });
    }
    Ok(rest)
}

/// So many bytes 00.
pub(crate) fn zeros_of(count: usize, bytes: &[u8]) -> Result<&[u8], BadField>
    ensures { GivesField (λ x. x.now) result (zeros_at count bytes.now) }
{
    let mut rest = bytes;
    'zeros: for done in 0..count {
        match zero_of(rest) {
            Ok(more) => rest = more,
            Err(bad) => return Err(bad),
        }
    }
    Ok(rest)
}
