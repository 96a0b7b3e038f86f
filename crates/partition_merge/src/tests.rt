//! Merges beside a plain look. Large rows that are cut stand in `large`.
//!
//! Up to four levels, the new pairs and three old runs, have 81 keys: at each key another choice of nothing, a deletion
//! and a put on each level. Key 0, which is also the low bound, is put on all of them.
ghost use Rattle.std.specs.Prelude.{◌≡◌, ◌<◌, ◌≤◌, true, length, map, IfOk};
ghost use Rattle.rdb_base.specs.Runs.{AreBelow};
ghost use Rattle.remix_seek.specs.Indexes.{Indexes};

mod large;

use crate::{Piece, carry_out, count_merged};
use partition_plan::Decision;
use partition_set::Partition;
use rdb_base::{Change, Key, Pair, SortedRun, Steps, Value, compare_bytes};
use remix_build::build;
use remix_seek::RunInMemory;
use std::alloc::Global;
use std::marker::Brand;
use std::process::Abort;
use std::sync::ledger::{Blank, Ledger};
use std::test::Fail;

const KEYS: u8 = 81;

/// The levels of the old runs of each case, which may come again. The new pairs are level 0.
const CASES: [&[u8]; 4] = [&[1, 2, 3], &[1, 2, 3, 1, 2, 3, 1], &[2], &[]];

/// What a level has at a key: nothing at 0, a deletion at 1, a put at 2. It is a digit of a number with three of them.
fn choice(number: u8, level: u8) -> u8 {
    let digits = 80u8.saturating_sub(number);
    match level {
        0 => digits % 3,
        1 => digits / 3 % 3,
        2 => digits / 9 % 3,
        _ => digits / 27 % 3,
    }
}

/// The change of a level at a key: a put of the level's number.
fn change_of(alloc: Global, number: u8, level: u8) -> Result<Option<Change>, Fail> {
    match choice(number, level) {
        0 => Ok(None),
        1 => Ok(Some(Change::Del)),
        _ => Ok(Some(Change::Put(Value::try_new(alloc, &[level])?))),
    }
}

/// The level whose put is the newest change at a key.
fn put_level(number: u8, old: &[u8]) -> Option<u8> {
    if choice(number, 0) > 0 {
        return if choice(number, 0) == 2 {
            Some(0)
        } else {
            None
        };
    }
    for level in old {
        match choice(number, *level) {
            0 => {}
            1 => return None,
            _ => return Some(*level),
        }
    }
    None
}

/// Whether each of these keys is below this one.
fn are_below(pairs: &[Pair], key: &[u8]) -> bool
    ensures { result ≡ true → AreBelow pairs.now key.now }
{
    let mut at: usize = 0;
    'pairs: while at < pairs.len() {
        let pair = &pairs[at];
        if !compare_bytes(pair.key.as_bytes(), key).is_lt() {
            return false;
        }
        at += 1;
    }
    true
}

/// One pair more. A key that is not above all others is refused.
fn add(run: &mut SortedRun, key: Key, change: Change) -> Result<(), Fail> {
    if !are_below(run.as_slice(), key.as_bytes()) {
        return Err("keys do not rise")?;
    }
    run.push(Pair { key, change })?;
    Ok(())
}

/// The run of a level.
fn run_of_level(alloc: Global, level: u8) -> Result<SortedRun, Fail> {
    let mut run = SortedRun::new(alloc);
    for number in 0..KEYS {
        match change_of(alloc, number, level)? {
            None => {}
            Some(change) => add(&mut run, Key::try_new(alloc, &[number])?, change)?,
        }
    }
    Ok(run)
}

/// The rows that stay.
fn rows_of(alloc: Global, old: &[u8]) -> Result<SortedRun, Fail> {
    let mut rows = SortedRun::new(alloc);
    for number in 0..KEYS {
        match put_level(number, old) {
            None => {}
            Some(level) => {
                let value = Value::try_new(alloc, &[level])?;
                add(
                    &mut rows,
                    Key::try_new(alloc, &[number])?,
                    Change::Put(value),
                )?;
            }
        }
    }
    Ok(rows)
}

fn in_memory(run: SortedRun) -> Result<RunInMemory, Fail> {
    match RunInMemory::new(run) {
        None => Err("too many pairs")?,
        Some(run) => Ok(run),
    }
}

fn runs_of(alloc: Global, old: &[u8]) -> Result<Vec<RunInMemory>, Fail> {
    let mut runs = Vec::new(alloc);
    for level in old {
        runs.push(in_memory(run_of_level(alloc, *level)?)?)?;
    }
    Ok(runs)
}

/// The partition of these runs from a bound on.
fn partition_of<L: Ledger>(
    alloc: Global,
    low: Vec<u8>,
    runs: Vec<RunInMemory>,
    steps: &mut Steps<L>,
) -> Result<Partition<RunInMemory>, Fail>
    ensures { IfOk result (λ part. Indexes (map (λ run. run) part.runs) part.view part.anchors) }
{
    if runs.len() > 8 {
        return Err("more than eight runs")?;
    }
    let remix = build(alloc, runs.as_slice(), steps)?;
    Ok(Partition {
        low,
        base: 7,
        runs,
        remix,
    })
}

/// The pairs of a run that may be missing.
fn pairs_of(run: &Option<SortedRun>) -> &[Pair] {
    match run {
        None => &[],
        Some(run) => run.as_slice(),
    }
}

/// One piece with the bound 0, and this run where it has a pair.
fn is_one_piece(
    rt: &(impl Abort + AllocGlobal),
    pieces: &[Piece],
    keeps_old: bool,
    run: &[Pair],
) -> Result<(), Fail> {
    let [piece] = pieces else {
        return Err("not one piece")?;
    };
    assert_eq!(rt; piece.low.as_slice(), [0].as_slice());
    assert_eq!(rt; piece.keeps_old, keeps_old);
    assert_eq!(rt; piece.run.is_some(), !run.is_empty());
    assert_eq!(rt; pairs_of(&piece.run), run);
    Ok(())
}

fn pieces_by(
    alloc: Global,
    part: &Partition<RunInMemory>,
    new: &SortedRun,
    decision: Decision,
) -> Result<Vec<Piece>, Fail>
    requires { Indexes (map (λ run. run) part.now.runs) part.now.view part.now.anchors }
{
    if new.len() == 0 || part.runs.len() > 7 {
        return Err("no new pair, or no room for a run")?;
    }
    Ok(carry_out(alloc, part, new, decision)?)
}

fn leaves(
    rt: &(impl Abort + AllocGlobal),
    part: &Partition<RunInMemory>,
    new: &SortedRun,
    decision: Decision,
    rows: &[Pair],
) -> Result<(), Fail>
    requires { Indexes (map (λ run. run) part.now.runs) part.now.view part.now.anchors }
{
    let pieces = pieces_by(rt.alloc(), part, new, decision)?;
    match decision {
        Decision::Abort => is_one_piece(rt, pieces.as_slice(), true, &[]),
        Decision::Minor => is_one_piece(rt, pieces.as_slice(), true, new.as_slice()),
        Decision::Major => is_one_piece(rt, pieces.as_slice(), false, rows),
        Decision::Split => is_one_piece(rt, pieces.as_slice(), false, rows),
    }
}

/// A row has eight bytes: six of lengths, one of the key and one of the value.
fn counts(
    rt: &(impl Abort + AllocGlobal),
    part: &Partition<RunInMemory>,
    new: &SortedRun,
    rows: &[Pair],
) -> Result<(), Fail>
    requires { Indexes (map (λ run. run) part.now.runs) part.now.view part.now.anchors }
{
    let (size, parts) = count_merged(part, new);
    assert_eq!(rt; size, (rows.len() as u64).saturating_mul(8));
    assert_eq!(rt; parts, 1);
    Ok(())
}

fn compare(
    rt: &(impl Abort + AllocGlobal),
    part: &Partition<RunInMemory>,
    new: &SortedRun,
    rows: &[Pair],
) -> Result<(), Fail>
    requires { Indexes (map (λ run. run) part.now.runs) part.now.view part.now.anchors }
{
    for decision in [
        Decision::Abort,
        Decision::Minor,
        Decision::Major,
        Decision::Split,
    ] {
        leaves(rt, part, new, decision, rows)?;
    }
    counts(rt, part, new, rows)
}

fn merge_case<L: Ledger>(
    rt: &(impl Abort + AllocGlobal),
    old: &[u8],
    steps: &mut Steps<L>,
) -> Result<(), Fail> {
    let alloc = rt.alloc();
    let new = run_of_level(alloc, 0)?;
    let rows = rows_of(alloc, old)?;
    let part = partition_of(
        alloc,
        Vec::from_slice(alloc, &[0])?,
        runs_of(alloc, old)?,
        steps,
    )?;
    compare(rt, &part, &new, rows.as_slice())
}

fn merge_cases<L: Ledger>(rt: &(impl Abort + AllocGlobal), blank: Blank) -> Result<(), Fail>
    requires name { blank.name ≡ L.name }
    requires parts { blank.parts ≡ L.parts }
    requires some { 0 < blank.parts }
{
    let mut steps = Steps::<L>::begin(blank);
    for old in CASES {
        merge_case(rt, old, &mut steps)?;
    }
    Ok(())
}

#[test]
fn each_decision_leaves_what_a_plain_look_finds(rt: HostRuntime) -> Result<(), Fail> {
    merge_cases::<Brand>(&rt, Blank::new(1))
}
