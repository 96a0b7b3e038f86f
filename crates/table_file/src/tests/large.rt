//! A table of 100,000 pairs: a builder or an opening that gave up at some size would not pass.
ghost use Rattle.std.specs.Prelude.{◌≡◌, ◌<◌};

use crate::Table;
use crate::tests::made::{Row, add_row, built, built_table, opened};
use rdb_base::{SortedRun, Steps};
use remix_seek::Runs;
use std::alloc::Global;
use std::marker::Brand;
use std::process::Abort;
use std::sync::ledger::{Blank, Ledger};
use std::test::Fail;

/// How many pairs the run has.
const PAIRS: u32 = 100_000;

/// Which of them has the longest value. 255 pairs of a key and a value of four bytes fill a block: their fields have 14
/// bytes, their offsets 2, and the block's count 2. So this one follows 200 full blocks.
const LONG: u32 = 51_000;

/// How long the table is: 200 units, 17 of the long pair, and 193 of the 48,999 pairs after it; 410 counts, and the footer.
const LEN: usize = 410 * 4_098 + 16;

/// The value of the pair with this number.
fn value_of<'a>(number: u32, short: &'a [u8], long: &'a [u8]) -> &'a [u8] {
    if number == LONG { long } else { short }
}

/// The run of all pairs. Keys and values are their numbers, but for the long value.
fn run_of_all(alloc: Global, long: &[u8]) -> Result<SortedRun, Fail> {
    let mut run = SortedRun::new(alloc);
    for number in 0..PAIRS {
        let bytes = number.to_be_bytes();
        add_row(
            alloc,
            &mut run,
            (&bytes, Some(value_of(number, &bytes, long))),
        )?;
    }
    Ok(run)
}

/// Whether a table has as many pairs, bytes and blocks as it is to have.
fn has_all(alloc: Global, table: &Table) -> Result<bool, Fail> {
    let blocks = table.blocks(alloc)?;
    Ok(table.len() == PAIRS && table.bytes().len() == LEN && blocks.len() == 394)
}

/// Whether the pair at a place is this one, as it is lent.
fn has_row<L: Ledger>(table: &Table, place: u32, want: Row<'_>, steps: &mut Steps<L>) -> bool {
    if place >= table.len() {
        return false;
    }
    let found = table.lent_key(place, steps) == want.0;
    found && is_value(table.lent_value(place), want.1)
}

fn is_value(found: Option<&[u8]>, want: Option<&[u8]>) -> bool {
    match (found, want) {
        (Some(found), Some(want)) => found == want,
        (found, want) => found.is_none() && want.is_none(),
    }
}

/// Whether each pair has the key and the value of its number.
fn has_rows<L: Ledger>(table: &Table, long: &[u8], blank: Blank) -> bool
    requires name { blank.name ≡ L.name }
    requires parts { blank.parts ≡ L.parts }
    requires some { 0 < blank.parts }
{
    let mut steps = Steps::<L>::begin(blank);
    for number in 0..PAIRS {
        let bytes = number.to_be_bytes();
        let want: Row<'_> = (&bytes, Some(value_of(number, &bytes, long)));
        if !has_row(table, number, want, &mut steps) {
            return false;
        }
    }
    true
}

fn is_whole(table: &Table, long: &[u8]) -> bool {
    has_rows::<Brand>(table, long, Blank::new(1))
}

/// Tests a table of all pairs.
fn is_table(rt: &(impl Abort + AllocGlobal), table: &Table, long: &[u8]) -> Result<(), Fail> {
    assert!(rt; has_all(rt.alloc(), table)?);
    assert!(rt; is_whole(table, long));
    Ok(())
}

#[test]
fn a_table_of_100_000_pairs_is_built_and_opened(rt: HostRuntime) -> Result<(), Fail> {
    let long = Vec::from_elem(rt.alloc(), b'v', 65_535)?;
    let run = run_of_all(rt.alloc(), &long)?;
    let bytes = built(rt.alloc(), &run)?;
    is_table(&rt, &opened(rt.alloc(), &bytes)?, &long)?;
    let (table, _digest) = built_table(rt.alloc(), &run)?;
    is_table(&rt, &table, &long)
}
