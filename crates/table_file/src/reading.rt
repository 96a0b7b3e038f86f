ghost use Rattle.std.specs.Prelude.{◌≡◌, [], None, IfSome};
ghost use Rattle.block_code.specs.declared.format.TheConstants.{FIRST_LIMITS};
ghost use Rattle.rdb_base.specs.PairFields.{GivesField};
ghost use Rattle.table_file.specs.TableReading.{next_block_at, blocks_at, table_fields, kept_of, first_wrong, wrong_of};
ghost use Rattle.table_file.specs.Answers.{next_lent, left_of, IsSomeTable, IsNoTable};

use crate::fields::{after, count_of, front, further_of, units_of, wrong_in_units};
use crate::format::FOOTER_LEN;
use block_code::{FIRST_LIMITS, UNIT, read_block};
use rdb_base::{BadField, PairLimits};

/// What a reader keeps after a block of a table: it copies no pair.
#[derive(Clone, Copy, Debug)]
pub struct NextBlock<'a> {
    /// The last key of the block.
    pub last: &'a [u8],
    /// The units after it, and the counts of these with the footer.
    pub units: &'a [u8],
    pub counts: &'a [u8],
}

/// The block at the front of these units, whose keys have to be above the last one, with the counts of its units.
fn next_block<'a>(
    limits: PairLimits,
    tail: &[u8],
    last: &'a [u8],
    units: &'a [u8],
    counts: &'a [u8],
) -> Result<NextBlock<'a>, BadField>
    ensures { GivesField next_lent result (kept_of last.now (next_block_at limits tail.now last.now units.now counts.now)) }
{
    let rest = count_of(tail, units, counts)?;
    let block = match read_block(limits, last, units) {
        Ok(block) => block,
        Err(bad) => return Err(wrong_in_units(tail, units, bad)),
    };
    let read = units.len().saturating_sub(block.rest.len());
    let counts = further_of((read / UNIT).saturating_sub(1), rest)?;
    Ok(NextBlock {
        last: block.last,
        units: block.rest,
        counts,
    })
}

/// All blocks of these units, of which there are at most so many. The tail is their counts and the footer.
fn all_blocks(limits: PairLimits, most: u32, units: &[u8], tail: &[u8]) -> Result<(), BadField>
    ensures { left_of result ≡ wrong_of (blocks_at limits tail.now most [] units.now tail.now) }
{
    let mut last: &[u8] = &[];
    let mut units = units;
    let mut counts = tail;
    'turns: for done in 0..most {
        if units.is_empty() {
            return Ok(());
        }
        match next_block(limits, tail, last, units, counts) {
            Ok(next) => {
                last = next.last;
                units = next.units;
                counts = next.counts;
            }
            Err(bad) => return Err(bad),
        }
    }
    Ok(())
}

/// A whole table: its footer, then block by block its counts, offsets, pairs and padding.
fn fields_of(limits: PairLimits, bytes: &[u8]) -> Result<(), BadField>
    ensures { left_of result ≡ wrong_of (table_fields limits bytes.now) }
{
    if bytes.len() < FOOTER_LEN {
        return Err(BadField { left: bytes.len() });
    }
    let units = units_of(bytes)?;
    let len = UNIT * units as usize;
    all_blocks(limits, units, front(len, bytes), after(len, bytes))
}

/// The first wrong place of bytes as a table of these limits.
fn wrong_within(limits: PairLimits, bytes: &[u8]) -> Option<usize>
    ensures { result ≡ first_wrong limits bytes.now }
{
    match fields_of(limits, bytes) {
        Ok(()) => None,
        Err(bad) => Some(bad.place(bytes.len())),
    }
}

/// The first wrong place of bytes as a table, none exactly where they are one. The bytes may be any at all. It takes no
/// memory.
pub(crate) fn wrong_place(bytes: &[u8]) -> Option<usize>
    ensures exact { result ≡ first_wrong FIRST_LIMITS bytes.now }
    ensures table { result ≡ None → IsSomeTable bytes.now }
    ensures none { IfSome result (λ place. IsNoTable bytes.now) }
{
    wrong_within(FIRST_LIMITS, bytes)
}
