//! Rows of one size that are cut: one part of just the most, one row more, and rows a byte too large.
ghost use Rattle.std.specs.Prelude.{◌≡◌, ◌<◌, map};
ghost use Rattle.remix_seek.specs.Indexes.{Indexes};

use crate::tests::{add, in_memory, pairs_of, partition_of, pieces_by};
use crate::{Piece, count_merged};
use partition_plan::Decision;
use partition_set::Partition;
use rdb_base::{Change, Key, SortedRun, Steps, Value};
use remix_seek::RunInMemory;
use std::alloc::Global;
use std::marker::Brand;
use std::process::Abort;
use std::sync::ledger::{Blank, Ledger};
use std::test::Fail;

/// Rows of one size, and the parts that they are cut into.
#[derive(Clone, Copy)]
struct Case {
    /// How many rows there are.
    rows: u8,
    /// How many bytes each value has. A row has 7 more.
    value: usize,
    /// How many rows each part has, but the last one.
    full: u8,
    /// How many rows the last part has.
    last: u8,
    /// How many parts there are.
    parts: u32,
    /// The size of all rows, in bytes.
    size: u64,
}

/// 32 rows of 65,536 bytes are just 2,097,152.
const CASES: [Case; 4] = [
    Case {
        rows: 32,
        value: 65_529,
        full: 32,
        last: 32,
        parts: 1,
        size: 2_097_152,
    },
    Case {
        rows: 33,
        value: 65_529,
        full: 32,
        last: 1,
        parts: 2,
        size: 2_162_688,
    },
    Case {
        rows: 32,
        value: 65_530,
        full: 31,
        last: 1,
        parts: 2,
        size: 2_097_184,
    },
    Case {
        rows: 96,
        value: 65_529,
        full: 32,
        last: 32,
        parts: 3,
        size: 6_291_456,
    },
];

/// The row of a number.
fn add_row(alloc: Global, run: &mut SortedRun, number: u8, bytes: &[u8]) -> Result<(), Fail> {
    let value = Value::try_new(alloc, bytes)?;
    add(run, Key::try_new(alloc, &[number])?, Change::Put(value))
}

/// Every other row, the even or the odd numbers, with values of so many bytes.
fn every_other(alloc: Global, odd: u8, case: Case) -> Result<SortedRun, Fail> {
    let bytes = vec![in alloc; 7u8; case.value]?;
    let mut run = SortedRun::new(alloc);
    for number in 0..case.rows {
        if number % 2 == odd {
            add_row(alloc, &mut run, number, bytes.as_slice())?;
        }
    }
    Ok(run)
}

/// A part has so many rows, and from the second part on its bound is its first key. Keys are the numbers of the rows.
fn is_part(
    rt: &(impl Abort + AllocGlobal),
    piece: &Piece,
    first: u8,
    rows: u8,
) -> Result<(), Fail> {
    assert_eq!(rt; pairs_of(&piece.run).len(), rows as usize);
    if first > 0 {
        assert_eq!(rt; piece.low.as_slice(), [first].as_slice());
    } else {
        assert!(rt; piece.low.as_slice().is_empty());
    }
    Ok(())
}

fn are_cut(rt: &(impl Abort + AllocGlobal), pieces: &[Piece], case: Case) -> Result<(), Fail> {
    assert_eq!(rt; pieces.len(), case.parts as usize);
    let mut first: u8 = 0;
    for piece in pieces {
        let rows = if first.saturating_add(case.full) < case.rows {
            case.full
        } else {
            case.last
        };
        is_part(rt, piece, first, rows)?;
        first = first.saturating_add(rows);
    }
    Ok(())
}

fn counts(
    rt: &(impl Abort + AllocGlobal),
    part: &Partition<RunInMemory>,
    new: &SortedRun,
    case: Case,
) -> Result<(), Fail>
    requires { Indexes (map (λ run. run) part.now.runs) part.now.view part.now.anchors }
{
    let (size, parts) = count_merged(part, new);
    assert_eq!(rt; size, case.size);
    assert_eq!(rt; parts, case.parts);
    Ok(())
}

fn cut_case<L: Ledger>(
    rt: &(impl Abort + AllocGlobal),
    case: Case,
    steps: &mut Steps<L>,
) -> Result<(), Fail> {
    let alloc = rt.alloc();
    let mut runs = Vec::new(alloc);
    runs.push(in_memory(every_other(alloc, 0, case)?)?)?;
    let part = partition_of(alloc, Vec::new(alloc), runs, steps)?;
    let new = every_other(alloc, 1, case)?;
    counts(rt, &part, &new, case)?;
    let pieces = pieces_by(alloc, &part, &new, Decision::Split)?;
    are_cut(rt, pieces.as_slice(), case)
}

fn cut_cases<L: Ledger>(rt: &(impl Abort + AllocGlobal), blank: Blank) -> Result<(), Fail>
    requires name { blank.name ≡ L.name }
    requires parts { blank.parts ≡ L.parts }
    requires some { 0 < blank.parts }
{
    let mut steps = Steps::<L>::begin(blank);
    for case in CASES {
        cut_case(rt, case, &mut steps)?;
    }
    Ok(())
}

#[test]
fn a_part_is_closed_by_the_row_that_has_no_room(rt: HostRuntime) -> Result<(), Fail> {
    cut_cases::<Brand>(&rt, Blank::new(1))
}
