//! Where the pairs of a table begin: its blocks' counts and offsets tell it.
ghost use Rattle.std.specs.Prelude.{◌≡◌, ◌+◌, ◌*◌, ◌^◌, ◌≤◌, ◌++◌, OnOk, IfOk};
ghost use Rattle.block_code.specs.declared.format.TheConstants.{UNIT};
ghost use Rattle.table_file.specs.declared.format.TheConstants.{TABLE_MAX};
ghost use Rattle.table_file.specs.Held.{places_in, places_of};

use crate::fields::after;
use block_code::UNIT;
use block_code::format::NUMBER_LEN;
use rdb_base::NoMemory;
use rdb_base::fields::{u16_at, u32_at};
use std::alloc::Global;

/// Adds so many places of the block that begins at this one, by its offsets.
fn add_places(
    places: &mut Vec<u32>,
    block: usize,
    count: u16,
    offsets: &[u8],
) -> Result<(), NoMemory>
    requires { block ≤ TABLE_MAX }
    ensures { OnOk result (places.new.items ≡ places.old.items ++ places_in block count offsets.now) }
{
    let mut rest = offsets;
    'offsets: for done in 0..count {
        match u16_at(rest) {
            Ok((offset, more)) => {
                places.push((block + offset as usize) as u32)?;
                rest = more;
            }
            Err(_) => return Ok(()),
        }
    }
    Ok(())
}

/// How many pairs a table tells at its end.
fn pairs_told(bytes: &[u8]) -> usize {
    match u32_at(after(bytes.len().saturating_sub(4), bytes)) {
        Ok((pairs, _)) => pairs as usize,
        Err(_) => 0,
    }
}

/// The places of all pairs of a table that has so many units.
pub(crate) fn places_of(alloc: Global, units: u32, bytes: &[u8]) -> Result<Vec<u32>, NoMemory>
    requires { UNIT * units ≤ TABLE_MAX }
    ensures { IfOk result (λ places. places.items ≡ places_of units bytes.now) }
{
    let mut places = Vec::with_capacity(alloc, pairs_told(bytes))?;
    let mut left = bytes;
    let mut counts = after(UNIT * units as usize, bytes);
    'units: for unit in 0..units {
        match u16_at(counts) {
            Ok((count, more)) => {
                let offsets = after(NUMBER_LEN, left);
                add_places(&mut places, UNIT * unit as usize, count, offsets)?;
                left = after(UNIT, left);
                counts = more;
            }
            Err(_) => return Ok(places),
        }
    }
    Ok(places)
}
