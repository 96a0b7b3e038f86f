//! Pairs of a table, read where they begin.
ghost use Rattle.std.specs.Prelude.{◌≡◌, ◌<◌, ◌^◌, length, IsOk, IfOk};
ghost use Rattle.block_code.specs.Answers.{pair_lent};
ghost use Rattle.rdb_base.specs.Runs.{pair_size, sizes};
ghost use Rattle.remix_seek.specs.Reads.{KeyAt, ValueAt, ValueOf};
ghost use Rattle.table_file.specs.Answers.{IsSomeTable};
ghost use Rattle.table_file.specs.Held.{pair_there, pair_read, pairs_held, ArePlaces, IsHeld};

use crate::fields::after;
use crate::format::{TABLE_MAX, UNIT_AND_COUNT};
use crate::places::places_of;
use block_code::FIRST_LIMITS;
use rdb_base::fields::{slice_at, u16_at};
use rdb_base::{LentChange, NoMemory, PairField, read_pair};
use std::alloc::{AllocError, Global};

/// The pair that begins there, lent.
fn pair_in(bytes: &[u8], start: usize) -> PairField<'_>
    requires { IsOk (pair_there bytes.now start) }
    ensures { pair_lent result ≡ pair_read (pair_there bytes.now start) }
{
    let (pair, _) = read_pair(FIRST_LIMITS, after(start, bytes)).unwrap();
    pair
}

/// The key of the pair that begins there.
pub(crate) fn key_in(bytes: &[u8], start: usize) -> &[u8]
    requires { IsOk (pair_there bytes.now start) }
    ensures { result.now ≡ (pair_read (pair_there bytes.now start)).key }
{
    let (len, rest) = u16_at(after(start, bytes)).unwrap();
    let (key, _) = slice_at(len as usize, rest).unwrap();
    key
}

/// The value of the pair that begins there, None at a deletion.
pub(crate) fn value_in(bytes: &[u8], start: usize) -> Option<&[u8]>
    requires { IsOk (pair_there bytes.now start) }
    ensures { ValueOf (pair_read (pair_there bytes.now start)).change result }
{
    match pair_in(bytes, start).change {
        LentChange::Put(value) => Some(value),
        LentChange::Del => None,
    }
}

/// The size of the pair that begins there.
fn size_in(bytes: &[u8], start: usize) -> u128
    requires { IsOk (pair_there bytes.now start) }
    ensures size { result ≡ pair_size (pair_read (pair_there bytes.now start)) }
    ensures most { result < 2 ^ 64 }
{
    let field = after(start, bytes);
    let (_, rest) = read_pair(FIRST_LIMITS, field).unwrap();
    (field.len() - rest.len()) as u128
}

/// The key of the pair that begins at one of these places.
pub(crate) fn key_of<'a>(bytes: &'a [u8], starts: &[u32], place: u32) -> &'a [u8]
    requires places { ArePlaces bytes.now starts.now }
    requires there { place < length (pairs_held bytes.now starts.now) }
    ensures { KeyAt (pairs_held bytes.now starts.now) place result.now }
{
    key_in(bytes, starts[place as usize] as usize)
}

/// The value of the pair that begins at one of these places, None at a deletion.
pub(crate) fn value_of<'a>(bytes: &'a [u8], starts: &[u32], place: u32) -> Option<&'a [u8]>
    requires places { ArePlaces bytes.now starts.now }
    requires there { place < length (pairs_held bytes.now starts.now) }
    ensures { ValueAt (pairs_held bytes.now starts.now) place result }
{
    value_in(bytes, starts[place as usize] as usize)
}

/// How many pairs begin at these places.
pub(crate) fn count_of(bytes: &[u8], starts: &[u32]) -> u32
    requires { length (pairs_held bytes.now starts.now) < 2 ^ 32 }
    ensures { result ≡ length (pairs_held bytes.now starts.now) }
{
    starts.len() as u32
}

/// The sizes of the pairs that begin at these places together.
pub(crate) fn size_of_pairs(bytes: &[u8], starts: &[u32]) -> u128
    requires { ArePlaces bytes.now starts.now }
    ensures { result ≡ sizes (pairs_held bytes.now starts.now) }
{
    let mut sum: u128 = 0;
    'places: for start in starts.iter() {
        sum += size_in(bytes, *start as usize);
    }
    sum
}

/// What is kept of a table beside its bytes: where its pairs begin, and their sizes together.
pub(crate) fn kept_of(alloc: Global, bytes: &[u8]) -> Result<(Vec<u32>, u128), NoMemory>
    requires { IsSomeTable bytes.now }
    ensures { IfOk result (λ kept. IsHeld bytes.now kept.0.items kept.1) }
{
    if bytes.len() > TABLE_MAX {
        return Err(AllocError);
    }
    let units = (bytes.len() / UNIT_AND_COUNT) as u32;
    let starts = places_of(alloc, units, bytes)?;
    let size = size_of_pairs(bytes, starts.as_slice());
    Ok((starts, size))
}
