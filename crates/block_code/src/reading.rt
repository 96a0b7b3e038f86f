ghost use Rattle.std.specs.Prelude.{◌≡◌, ◌<◌, length, IfOk, IfErr};
ghost use Rattle.rdb_base.specs.PairFields.{GivesField};
ghost use Rattle.block_code.specs.declared.format.TheConstants.{UNIT};
ghost use Rattle.block_code.specs.Blocks.{padding};
ghost use Rattle.block_code.specs.Reading.{offsets_of_area, pairs_of_area, padding_of_area};
ghost use Rattle.block_code.specs.Reading.{block_in, block_in_unit, block_at, block_of, count_of, pairs_of, ends_of};
ghost use Rattle.block_code.specs.Answers.{HasBlock, HasNone, ends_lent};

use crate::ends::BlockEnds;
use crate::fields::{after, first_place, front, offsets_of, pairs_of, zeros_of};
use crate::format::{FIRST_LIMITS, NUMBER_LEN, UNIT};
use rdb_base::fields::u16_at;
use rdb_base::{BadField, PairLimits};

/// How many bytes are missing to a whole number of units.
pub(crate) fn padding_of(size: usize) -> usize
    ensures size { result ≡ padding size }
    ensures most { result < UNIT }
{
    (UNIT - size % UNIT) % UNIT
}

/// A block's offsets.
fn offsets_in(limits: PairLimits, count: u16, area: &[u8]) -> Result<&[u8], BadField>
    ensures { GivesField (λ x. x.now) result (offsets_of_area limits count area.now) }
{
    let pairs = after(first_place(count), area);
    offsets_of(limits, count, after(NUMBER_LEN, area), pairs)
}

/// A block's pairs.
fn pairs_in<'a>(
    limits: PairLimits,
    last: &'a [u8],
    count: u16,
    area: &'a [u8],
) -> Result<BlockEnds<'a>, BadField>
    ensures { GivesField ends_lent result (ends_of last.now (pairs_of_area limits last.now count area.now)) }
{
    pairs_of(limits, count, last, after(first_place(count), area))
}

/// A block's padding, where this is left of its area after its pairs.
fn padding_in<'a>(area: &[u8], rest: &'a [u8]) -> Result<&'a [u8], BadField>
    ensures { GivesField (λ x. x.now) result (padding_of_area area.now rest.now) }
{
    zeros_of(padding_of(area.len().saturating_sub(rest.len())), rest)
}

/// A block's offsets, then its pairs, then its padding, within this area: the last key, and what is after it.
fn fields_in<'a>(
    limits: PairLimits,
    last: &'a [u8],
    count: u16,
    area: &'a [u8],
) -> Result<BlockEnds<'a>, BadField>
    ensures { GivesField ends_lent result (ends_of last.now (block_in limits last.now count area.now)) }
{
    let _ = offsets_in(limits, count, area)?;
    let found = pairs_in(limits, last, count, area)?;
    let rest = padding_in(area, found.rest)?;
    Ok(BlockEnds { rest, ..found })
}

/// The same within the first unit, with the units after that one.
fn fields_in_unit<'a>(
    limits: PairLimits,
    last: &'a [u8],
    count: u16,
    units: &'a [u8],
) -> Result<BlockEnds<'a>, BadField>
    ensures { GivesField ends_lent result (ends_of last.now (block_in_unit limits last.now count units.now)) }
{
    let unit = front(UNIT, units);
    match fields_in(limits, last, count, unit) {
        Ok(found) => Ok(BlockEnds {
            rest: after(UNIT, units),
            ..found
        }),
        Err(bad) => Err(BadField {
            left: units.len().saturating_sub(bad.place(unit.len())),
        }),
    }
}

/// The block at the front of these units, which may be any bytes at all. Its keys have to be above the last one. It
/// takes no memory.
///
/// Its fields are its count, its offsets, its pairs and its padding. A count of 0 is wrong. A block of one pair may go
/// on over all the units, every other one has to end within the first; a field that passes that end is wrong. The first
/// offset has to be the place of the first pair, and each next one the end of the pair before, as far as the pairs
/// before are whole. A key that is not above the one before is wrong at its length. Each byte of the padding is a field.
pub fn read_block<'a>(
    limits: PairLimits,
    last: &'a [u8],
    units: &'a [u8],
) -> Result<BlockEnds<'a>, BadField>
    ensures { GivesField ends_lent result (ends_of last.now (block_at limits last.now units.now)) }
{
    let (count, _) = u16_at(units)?;
    if count == 0 {
        return Err(BadField { left: units.len() });
    }
    if count == 1 {
        return fields_in(limits, last, count, units);
    }
    fields_in_unit(limits, last, count, units)
}

/// The same of bytes that have to be one block and no more.
fn count_in(block: &[u8]) -> Result<u16, usize>
    ensures { result ≡ count_of (block_of block.now) }
{
    match read_block(FIRST_LIMITS, &[], block) {
        Ok(found) => {
            if !found.rest.is_empty() {
                return Err(block.len().saturating_sub(found.rest.len()));
            }
            Ok(found.count)
        }
        Err(bad) => Err(bad.place(block.len())),
    }
}

/// How many pairs a block has, or its first wrong place. The bytes may be any at all, and as many as they like. It takes
/// no memory.
pub fn check_block(block: &[u8]) -> Result<u16, usize>
    ensures exact { result ≡ count_of (block_of block.now) }
    ensures pairs { IfOk result (λ count. count ≡ length (pairs_of block.now)) }
    ensures block { IfOk result (λ count. HasBlock count block.now) }
    ensures none { IfErr result (λ place. HasNone block.now) }
{
    count_in(block)
}
