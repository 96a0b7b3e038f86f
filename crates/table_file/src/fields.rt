//! The fields of a table beside its blocks, read from left to right. None of these takes memory.
ghost use Rattle.std.specs.Prelude.{◌≡◌, ◌+◌, ◌-◌, ◌*◌, ◌<◌, ◌≤◌, ◌^◌, length, take, drop, IfOk};
ghost use Rattle.std.specs.Int.{w16, w32};
ghost use Rattle.rdb_base.specs.PairFields.{GivesField};
ghost use Rattle.block_code.specs.Reading.{number_is};
ghost use Rattle.table_file.specs.TableReading.{counts_agree, further_at, sum_at, footer_at};

use crate::format::{FIRST_VERSION, FOOTER_LEN, MAGIC, UNIT_AND_COUNT};
use block_code::UNIT;
use rdb_base::BadField;
use rdb_base::fields::{u16_at, u32_at};

/// What is after so many bytes, or nothing where there are fewer.
pub(crate) fn after(count: usize, bytes: &[u8]) -> &[u8]
    ensures { result.now ≡ drop count bytes.now }
{
    let (_, rest) = bytes.split_at(count.min(bytes.len()));
    rest
}

/// The first so many bytes, or all where there are fewer.
pub(crate) fn front(count: usize, bytes: &[u8]) -> &[u8]
    ensures { result.now ≡ take count bytes.now }
{
    let (front, _) = bytes.split_at(count.min(bytes.len()));
    front
}

/// A field that is wrong in units with this tail after them, told from the end of all.
pub(crate) fn wrong_in_units(tail: &[u8], units: &[u8], bad: BadField) -> BadField
    ensures { result.left ≡ length units.now + length tail.now - (length units.now - bad.left) }
{
    BadField {
        left: units.len() + tail.len() - bad.place(units.len()),
    }
}

/// A number of two bytes that has to be this one.
fn u16_is(number: u16, bytes: &[u8]) -> Result<&[u8], BadField>
    ensures { GivesField (λ x. x.now) result (number_is w16 number bytes.now) }
{
    let (found, rest) = u16_at(bytes)?;
    if found != number {
        return Err(BadField { left: bytes.len() });
    }
    Ok(rest)
}

/// A number of four bytes that has to be this one.
fn u32_is(number: u64, bytes: &[u8]) -> Result<&[u8], BadField>
    ensures { GivesField (λ x. x.now) result (number_is w32 number bytes.now) }
{
    let (found, rest) = u32_at(bytes)?;
    if found as u64 != number {
        return Err(BadField { left: bytes.len() });
    }
    Ok(rest)
}

/// The next unit's count, which has to be the same in the array and in the unit, and not 0.
#[tactic(auto, unfolding(crate::specs::TableReading::counts_agree))]
pub(crate) fn count_of<'a>(
    tail: &[u8],
    units: &[u8],
    counts: &'a [u8],
) -> Result<&'a [u8], BadField>
    ensures { GivesField (λ x. x.now) result (counts_agree tail.now units.now counts.now) }
{
    let (here, rest) = u16_at(counts)?;
    let (told, _) = match u16_at(units) {
        Ok(told) => told,
        Err(bad) => return Err(wrong_in_units(tail, units, bad)),
    };
    if here != told {
        return Err(BadField { left: counts.len() });
    }
    if here == 0 {
        return Err(BadField {
            left: units.len() + tail.len(),
        });
    }
    Ok(rest)
}

/// The counts of so many further units, which have to be 0.
pub(crate) fn further_of(count: usize, counts: &[u8]) -> Result<&[u8], BadField>
    ensures { GivesField (λ x. x.now) result (further_at count counts.now) }
{
    let mut rest = counts;
    'units: for done in 0..count {
        match u16_is(0, rest) {
            Ok(more) => rest = more,
            Err(bad) => return Err(bad),
        }
    }
    Ok(rest)
}

/// The sum of so many counts.
fn sum_of(count: u32, counts: &[u8]) -> Result<u64, BadField>
    ensures { GivesField (λ x. x) result (sum_at count counts.now) }
{
    let mut sum: u64 = 0;
    let mut rest = counts;
    'counts: for done in 0..count {
        match u16_at(rest) {
            Ok((one, more)) => {
                sum += one as u64;
                rest = more;
            }
            Err(bad) => return Err(bad),
        }
    }
    Ok(sum)
}

/// How many units a table has, by its footer, which has to agree with the length of all and with the counts.
#[tactic(auto, unfolding(crate::specs::TableReading::footer_at))]
pub(crate) fn units_of(bytes: &[u8]) -> Result<u32, BadField>
    requires { FOOTER_LEN ≤ length bytes.now }
    ensures { GivesField (λ x. x) result (footer_at bytes.now) }
{
    let version = u32_is(MAGIC as u64, after(bytes.len() - FOOTER_LEN, bytes))?;
    let empty = u16_is(FIRST_VERSION, version)?;
    let told = u16_is(0, empty)?;
    let (units, pairs) = u32_at(told)?;
    if units == 0 {
        return Err(BadField { left: told.len() });
    }
    if bytes.len() != UNIT_AND_COUNT * units as usize + FOOTER_LEN {
        return Err(BadField { left: told.len() });
    }
    let sum = sum_of(units, after(UNIT * units as usize, bytes))?;
    let _ = u32_is(sum, pairs)?;
    Ok(units)
}
