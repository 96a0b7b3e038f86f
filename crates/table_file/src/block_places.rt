//! Where the blocks of a table lie: the counts of its units tell it.
ghost use Rattle.std.specs.Prelude.{◌≡◌, ◌+◌, ◌*◌, ◌≤◌, ◌++◌, List, IfOk, OnOk};
ghost use Rattle.rdb_base.specs.declared.pair.Pair.{Pair};
ghost use Rattle.block_code.specs.declared.format.TheConstants.{UNIT, FIRST_LIMITS};
ghost use Rattle.table_file.specs.declared.format.TheConstants.{TABLE_MAX};
ghost use Rattle.table_file.specs.BlockPlaces.{some_block, further_units, blocks_told, HasBlocks};
ghost use Rattle.table_file.specs.Tables.{IsTable};

use crate::block_place::BlockPlace;
use crate::fields::after;
use crate::format::{TABLE_MAX, UNIT_AND_COUNT};
use block_code::UNIT;
use rdb_base::NoMemory;
use rdb_base::fields::u16_at;
use std::alloc::{AllocError, Global};

/// How many units have no count before the next that has one, at most so many.
fn units_without(most: u32, counts: &[u8]) -> u32
    ensures units { result ≡ further_units most counts.now }
    ensures most { result ≤ most }
{
    let mut rest = counts;
    'units: for done in 0..most {
        match u16_at(rest) {
            Ok((count, more)) => {
                if count != 0 {
                    return done;
                }
                rest = more;
            }
            Err(_) => return done,
        }
    }
    most
}

/// Adds the block that begins at this place, if its unit has a count. After the unit there are at most so many, with these
/// counts.
fn add_block(
    found: &mut Vec<BlockPlace>,
    place: u32,
    count: u16,
    most: u32,
    counts: &[u8],
) -> Result<(), NoMemory>
    requires { UNIT * (1 + most) ≤ TABLE_MAX }
    ensures { OnOk result (found.new.items ≡ found.old.items ++ some_block (record { place = place; count = count; len = UNIT * (1 + further_units most counts.now) })) }
{
    if count == 0 {
        return Ok(());
    }
    let len = UNIT as u32 * (1 + units_without(most, counts));
    found.push(BlockPlace { place, count, len })?;
    Ok(())
}

/// The blocks that begin in so many units with these counts.
fn blocks_of(alloc: Global, units: u32, counts: &[u8]) -> Result<Vec<BlockPlace>, NoMemory>
    requires { UNIT * units ≤ TABLE_MAX }
    ensures { IfOk result (λ found. found.items ≡ blocks_told units 0 counts.now) }
{
    let mut found = Vec::new(alloc);
    let mut rest = counts;
    'units: for unit in 0..units {
        match u16_at(rest) {
            Ok((count, more)) => {
                let place = UNIT as u32 * unit;
                add_block(&mut found, place, count, units - unit - 1, more)?;
                rest = more;
            }
            Err(_) => return Ok(found),
        }
    }
    Ok(found)
}

/// The blocks of a table.
pub(crate) fn blocks_in(alloc: Global, bytes: &[u8]) -> Result<Vec<BlockPlace>, NoMemory>
    ensures { (run : List Pair) → IsTable FIRST_LIMITS run bytes.now → IfOk result (λ found. HasBlocks run bytes.now found.items) }
{
    if bytes.len() > TABLE_MAX {
        return Err(AllocError);
    }
    let units = (bytes.len() / UNIT_AND_COUNT) as u32;
    blocks_of(alloc, units, after(UNIT * units as usize, bytes))
}
