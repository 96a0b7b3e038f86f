//! A table is written block by block: a pair goes into the open block while it fits.
ghost use Rattle.std.specs.Prelude.{◌≡◌, ◌-◌, ◌/◌, ◌^◌, ◌<◌, ◌≤◌, ◌++◌, length, take, drop, IfOk, OnOk};
ghost use Rattle.std.specs.Int.{w16, w32, to_be_bytes};
ghost use Rattle.rdb_base.specs.PairFields.{IsPairWithin};
ghost use Rattle.rdb_base.specs.Runs.{pair_size};
ghost use Rattle.block_code.specs.declared.format.TheConstants.{UNIT, FIRST_KEY_MAX, FIRST_VALUE_MAX, FIRST_LIMITS};
ghost use Rattle.block_code.specs.Blocks.{block, block_size};
ghost use Rattle.table_file.specs.declared.format.TheConstants.{TABLE_MAX};
ghost use Rattle.table_file.specs.Tables.{block_bytes, count_bytes, unit_counts, footer, AreWithin};
ghost use Rattle.table_file.specs.Packing.{packed};

use crate::format::{COUNT_LEN, FIRST_VERSION, MAGIC, TABLE_MAX};
use block_code::{UNIT, block_fits, write_block};
use rdb_base::{Change, NoMemory, Pair};
use std::alloc::{AllocError, Global};

/// A table that is being written.
#[derive(Drop)]
pub(crate) struct Draft {
    /// Its whole blocks.
    pub(crate) units: Vec<u8>,
    /// The counts of their units.
    pub(crate) counts: Vec<u8>,
}

/// The size of a pair, which is within the limits of the first format.
fn size_within(pair: &Pair) -> usize
    ensures size { result ≡ pair_size pair.now }
    ensures within { IsPairWithin FIRST_KEY_MAX FIRST_VALUE_MAX pair.now.key pair.now.change }
{
    let key = pair.key.as_bytes();
    match &pair.change {
        Change::Put(value) => 6 + key.len() + value.as_bytes().len(),
        Change::Del => 6 + key.len(),
    }
}

/// The pairs from one place up to another.
fn between(pairs: &[Pair], from: usize, to: usize) -> &[Pair]
    requires order { from ≤ to }
    requires inside { to ≤ length pairs.now }
    ensures { result.now ≡ take (to - from) (drop from pairs.now) }
{
    let (_, rest) = pairs.split_at(from);
    let (found, _) = rest.split_at(to - from);
    found
}

/// Adds the block of these pairs, and the counts of its units.
fn add_block(draft: &mut Draft, pairs: &[Pair]) -> Result<(), NoMemory>
    requires some { 1 ≤ length pairs.now }
    requires one_unit { 2 ≤ length pairs.now → block_size pairs.now ≤ UNIT }
    ensures units { OnOk result (draft.new.units.items ≡ draft.old.units.items ++ block pairs.now) }
    ensures counts { OnOk result (draft.new.counts.items ≡ draft.old.counts.items ++ unit_counts pairs.now) }
{
    let before = draft.units.len();
    write_block(pairs, &mut draft.units)?;
    let units = (draft.units.len() - before) / UNIT;
    let count = pairs.len() as u16;
    draft.counts.extend_from_slice(&count.to_be_bytes())?;
    let further = COUNT_LEN * units.saturating_sub(1);
    draft.counts.resize(draft.counts.len() + further, 0)?;
    Ok(())
}

/// The blocks of these pairs.
pub(crate) fn draft_of(alloc: Global, pairs: &[Pair]) -> Result<Draft, NoMemory>
    requires { 1 ≤ length pairs.now }
    ensures units { IfOk result (λ draft. draft.units.items ≡ block_bytes (packed pairs.now)) }
    ensures counts { IfOk result (λ draft. draft.counts.items ≡ count_bytes (packed pairs.now)) }
    ensures within { IfOk result (λ draft. AreWithin FIRST_LIMITS pairs.now) }
{
    let mut draft = Draft {
        units: Vec::new(alloc),
        counts: Vec::new(alloc),
    };
    let mut first: usize = 0;
    let mut size = size_within(&pairs[0]);
    'pairs: for at in 1..pairs.len() {
        let more = size_within(&pairs[at]);
        if block_fits(at - first, size, more as u64) {
            size += more;
        } else {
            add_block(&mut draft, between(pairs, first, at))?;
            first = at;
            size = more;
        }
    }
    add_block(&mut draft, between(pairs, first, pairs.len()))?;
    Ok(draft)
}

fn add_u16(bytes: &mut Vec<u8>, number: u16) -> Result<(), NoMemory>
    ensures { OnOk result (bytes.new.items ≡ bytes.old.items ++ to_be_bytes w16 number) }
{
    bytes.extend_from_slice(&number.to_be_bytes())
}

fn add_u32(bytes: &mut Vec<u8>, number: u32) -> Result<(), NoMemory>
    ensures { OnOk result (bytes.new.items ≡ bytes.old.items ++ to_be_bytes w32 number) }
{
    bytes.extend_from_slice(&number.to_be_bytes())
}

/// Adds what ends a table.
fn add_footer(bytes: &mut Vec<u8>, units: u32, pairs: u32) -> Result<(), NoMemory>
    ensures { OnOk result (bytes.new.items ≡ bytes.old.items ++ footer units pairs) }
{
    add_u32(bytes, MAGIC)?;
    add_u16(bytes, FIRST_VERSION)?;
    add_u16(bytes, 0)?;
    add_u32(bytes, units)?;
    add_u32(bytes, pairs)?;
    Ok(())
}

/// A whole table, of its units, their counts, and so many pairs.
pub(crate) fn finished(units: Vec<u8>, counts: &[u8], pairs: usize) -> Result<Vec<u8>, NoMemory>
    ensures spelled { IfOk result (λ bytes. bytes.items ≡ (units.items ++ counts.now) ++ footer (length units.items / UNIT) pairs) }
    ensures few { IfOk result (λ bytes. pairs < 2 ^ 32) }
    ensures len { IfOk result (λ bytes. length bytes.items ≤ TABLE_MAX) }
{
    let Ok(pairs) = u32::try_from(pairs) else {
        return Err(AllocError);
    };
    if units.len() > TABLE_MAX {
        return Err(AllocError);
    }
    let unit_count = (units.len() / UNIT) as u32;
    let mut bytes = units;
    bytes.extend_from_slice(counts)?;
    add_footer(&mut bytes, unit_count, pairs)?;
    if bytes.len() > TABLE_MAX {
        return Err(AllocError);
    }
    bytes.shrink_to_fit();
    Ok(bytes)
}
