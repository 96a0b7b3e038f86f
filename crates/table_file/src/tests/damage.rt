//! What it makes of a table to flip the lowest bit of one byte.
ghost use Rattle.std.specs.Prelude.{◌≡◌, ◌<◌};

use crate::Table;
use crate::reading::wrong_place;
use crate::tests::made::{Row, built, is_wrong_at, opened, run_of_four};
use crate::tests::plain_pairs::plain_pair;
use rdb_base::{Change, Pair, Steps};
use remix_seek::Runs;
use std::alloc::Global;
use std::marker::Brand;
use std::process::Abort;
use std::sync::ledger::{Blank, Ledger};
use std::test::Fail;

/// The key and the value at a place, as they are lent.
fn lent<'a, R: Runs, L: Ledger>(
    run: &'a R,
    place: u32,
    steps: &mut Steps<L>,
) -> Result<Row<'a>, Fail> {
    if place >= run.len() {
        return Err("no such place")?;
    }
    let key = run.lent_key(place, steps);
    Ok((key, run.lent_value(place)))
}

/// The pair at a place, as it is copied.
fn copied<R: Runs, L: Ledger>(
    alloc: Global,
    run: &R,
    place: u32,
    steps: &mut Steps<L>,
) -> Result<Pair, Fail> {
    if place >= run.len() {
        return Err("no such place")?;
    }
    let key = run.key_at(alloc, place, steps)?;
    let change = run.change_at(alloc, place)?;
    Ok(Pair { key, change })
}

fn row_of(pair: &Pair) -> Row<'_> {
    let value = match &pair.change {
        Change::Put(value) => Some(value.as_bytes()),
        Change::Del => None,
    };
    (pair.key.as_bytes(), value)
}

fn is_row(rt: &impl Abort, found: Row<'_>, want: Row<'_>) {
    assert!(rt; found.0 == want.0);
    assert!(rt; found.1 == want.1);
}

/// Reads a pair, lent and copied, and compares it with what a plain reader finds where it begins.
fn is_plain<L: Ledger>(
    rt: &(impl Abort + AllocGlobal),
    table: &Table,
    place: u32,
    start: usize,
    steps: &mut Steps<L>,
) -> Result<(), Fail> {
    let plain = plain_pair(table.bytes(), start);
    is_row(rt, lent(table, place, steps)?, plain);
    let copy = copied(rt.alloc(), table, place, steps)?;
    is_row(rt, row_of(&copy), plain);
    Ok(())
}

/// Reads all pairs of a table of four, which begin at these places.
fn are_plain<L: Ledger>(
    rt: &(impl Abort + AllocGlobal),
    table: &Table,
    steps: &mut Steps<L>,
) -> Result<(), Fail> {
    assert_eq!(rt; table.len(), 4);
    is_plain(rt, table, 0, 6, steps)?;
    is_plain(rt, table, 1, 14, steps)?;
    is_plain(rt, table, 2, 4100, steps)?;
    is_plain(rt, table, 3, 12_292, steps)
}

/// What a changed byte makes of a table.
#[derive(Clone, Copy)]
enum Found {
    /// A wrong field that begins at this place.
    At(usize),
    /// A wrong field that begins at the byte.
    Itself,
    /// A table of another run.
    Taken,
}

use Found::{At, Itself, Taken};

/// What it makes of the table of four pairs to flip the lowest bit of a byte: the first and the last byte of each stretch.
/// Another program worked it out.
const DAMAGE: &[(usize, usize, Found)] = &[
    (0, 1, At(16384)),
    (2, 2, Itself),
    (3, 3, At(2)),
    (4, 4, Itself),
    (5, 6, At(4)),
    (7, 7, At(6)),
    (8, 8, Taken),
    (9, 9, Itself),
    (10, 10, At(9)),
    (11, 12, At(4)),
    (13, 14, Taken),
    (15, 15, At(14)),
    (16, 16, At(4100)),
    (17, 17, Itself),
    (18, 20, At(17)),
    (21, 4095, Itself),
    (4096, 4097, At(16386)),
    (4098, 4098, Itself),
    (4099, 4099, At(4098)),
    (4100, 4100, At(4359)),
    (4101, 4102, At(4100)),
    (4103, 4103, Itself),
    (4104, 4104, At(4103)),
    (4105, 4105, At(8851)),
    (4106, 9106, Taken),
    (9107, 12287, Itself),
    (12288, 12289, At(16390)),
    (12290, 12290, Itself),
    (12291, 12291, At(12290)),
    (12292, 12292, Taken),
    (12293, 12293, At(12292)),
    (12294, 12294, Taken),
    (12295, 12295, Itself),
    (12296, 12296, At(12295)),
    (12297, 12298, Taken),
    (12299, 16383, Itself),
    (16384, 16391, At(16404)),
    (16392, 16392, Itself),
    (16393, 16395, At(16392)),
    (16396, 16396, Itself),
    (16397, 16397, At(16396)),
    (16398, 16398, Itself),
    (16399, 16399, At(16398)),
    (16400, 16400, Itself),
    (16401, 16403, At(16400)),
    (16404, 16404, Itself),
    (16405, 16407, At(16404)),
];

/// Tests the table with the lowest bit of a byte flipped, and flips it back. At the ends of a stretch it is opened, too.
fn damaged<L: Ledger>(
    rt: &(impl Abort + AllocGlobal),
    bytes: &mut Vec<u8>,
    at: usize,
    opens: bool,
    found: Found,
    steps: &mut Steps<L>,
) -> Result<(), Fail> {
    flip(bytes, at);
    let place = match found {
        At(place) => Some(place),
        Itself => Some(at),
        Taken => None,
    };
    assert_eq!(rt; wrong_place(bytes.as_slice()), place, "{at}");
    if opens {
        match place {
            Some(place) => is_wrong_at(rt, bytes.as_slice(), place)?,
            None => are_plain(rt, &opened(rt.alloc(), bytes.as_slice())?, steps)?,
        }
    }
    flip(bytes, at);
    Ok(())
}

fn flip(bytes: &mut Vec<u8>, at: usize) {
    if let Some(byte) = bytes.get_mut(at) {
        *byte ^= 1;
    }
}

fn all_damaged<L: Ledger>(rt: &(impl Abort + AllocGlobal), blank: Blank) -> Result<(), Fail>
    requires name { blank.name ≡ L.name }
    requires parts { blank.parts ≡ L.parts }
    requires some { 0 < blank.parts }
{
    let mut steps = Steps::<L>::begin(blank);
    let mut bytes = built(rt.alloc(), &run_of_four(rt.alloc())?)?;
    assert_eq!(rt; bytes.len(), 16_408);
    are_plain(rt, &opened(rt.alloc(), bytes.as_slice())?, &mut steps)?;
    for stretch in DAMAGE.iter() {
        let (first, last, found) = *stretch;
        for at in first..=last {
            let opens = at == first || at == last;
            damaged(rt, &mut bytes, at, opens, found, &mut steps)?;
        }
    }
    Ok(())
}

#[test]
fn each_flipped_bit_is_told_or_read(rt: HostRuntime) -> Result<(), Fail> {
    all_damaged::<Brand>(&rt, Blank::new(1))
}
