//! Runs and tables that tests are made of.
ghost use Rattle.std.specs.Prelude.{◌≡◌, true};
ghost use Rattle.rdb_base.specs.Runs.{AreBelow};

use crate::{Table, TableBuilder, TableError};
use rdb_base::{Change, Key, Pair, SortedRun, Value, compare_bytes};
use sha2::{Digest, Sha256};
use std::alloc::Global;
use std::process::Abort;
use std::test::Fail;

/// What the table of one pair has after its unit: one count, and the footer.
const ONE_END: &[u8] = b"\0\x01RDBT\0\x01\0\0\0\0\0\x01\0\0\0\x01";

/// The SHA-256 of the table of a=1, by another program.
pub const ONE_DIGEST: [u8; 32] = [
    0x61, 0x74, 0xC0, 0xCA, 0xFD, 0x7D, 0x99, 0x44, 0xBD, 0xB6, 0x7A, 0xEC, 0xA3, 0xBB, 0xA1, 0x91,
    0x42, 0xB9, 0xC8, 0x18, 0xA7, 0xB9, 0x88, 0x53, 0xB0, 0xC6, 0x42, 0xEE, 0x25, 0x3A, 0xFA, 0x89,
];

/// A key and its value, None at a deletion.
pub type Row<'a> = (&'a [u8], Option<&'a [u8]>);

/// The table of a=1: 4,114 bytes.
pub fn one(alloc: Global) -> Result<Vec<u8>, Fail> {
    let mut bytes = Vec::from_slice(alloc, b"\0\x01\0\x04\0\x01a\0\0\0\x011")?;
    bytes.resize(4096, 0)?;
    bytes.extend_from_slice(ONE_END)?;
    Ok(bytes)
}

fn pair_of(alloc: Global, row: Row<'_>) -> Result<Pair, Fail> {
    let (key, value) = row;
    let key = Key::try_new(alloc, key)?;
    let change = match value {
        Some(value) => Change::Put(Value::try_new(alloc, value)?),
        None => Change::Del,
    };
    Ok(Pair { key, change })
}

/// Whether a key is above all of a run.
fn is_above(run: &SortedRun, key: &[u8]) -> bool
    ensures { result ≡ true → AreBelow run.now key.now }
{
    let pairs = run.as_slice();
    let count = pairs.len();
    if count == 0 {
        return true;
    }
    let last = &pairs[count - 1];
    compare_bytes(last.key.as_bytes(), key).is_lt()
}

/// Adds a row to a run, whose keys are below that of the row.
pub fn add_row(alloc: Global, run: &mut SortedRun, row: Row<'_>) -> Result<(), Fail> {
    let pair = pair_of(alloc, row)?;
    if !is_above(run, pair.key.as_bytes()) {
        return Err("keys that rise")?;
    }
    run.push(pair)?;
    Ok(())
}

/// The run of these rows, whose keys rise.
pub fn run_of(alloc: Global, rows: &[Row<'_>]) -> Result<SortedRun, Fail> {
    let mut run = SortedRun::new(alloc);
    for row in rows.iter() {
        add_row(alloc, &mut run, *row)?;
    }
    Ok(run)
}

/// A run of three blocks: a=1 and a deletion of b, a long value at c, and none at d. Its table has four units.
pub fn run_of_four(alloc: Global) -> Result<SortedRun, Fail> {
    let long = Vec::from_elem(alloc, b'x', 5000)?;
    let rows: [Row<'_>; 4] = [
        (b"a", Some(b"1")),
        (b"b", None),
        (b"c", Some(long.as_slice())),
        (b"d", Some(b"")),
    ];
    run_of(alloc, &rows)
}

/// The bytes of the table of a run.
pub fn built(alloc: Global, run: &SortedRun) -> Result<Vec<u8>, Fail> {
    if run.len() == 0 {
        return Err("no pair")?;
    }
    Ok(TableBuilder::build(alloc, run)?)
}

/// The table of a run, with its digest.
pub fn built_table(alloc: Global, run: &SortedRun) -> Result<(Table, [u8; 32]), Fail> {
    if run.len() == 0 {
        return Err("no pair")?;
    }
    Ok(TableBuilder::table(alloc, run)?)
}

/// Opens bytes under their own SHA-256.
fn open(alloc: Global, bytes: &[u8]) -> Result<Result<Table, TableError>, Fail> {
    let digest = Sha256::digest(bytes);
    Ok(Table::open(alloc, Vec::from_slice(alloc, bytes)?, &digest))
}

/// Opens bytes that have to be a table.
pub fn opened(alloc: Global, bytes: &[u8]) -> Result<Table, Fail> {
    match open(alloc, bytes)? {
        Ok(table) => Ok(table),
        Err(_) => Err("a table")?,
    }
}

/// Opens bytes that have to be wrong at this place.
pub fn is_wrong_at(
    rt: &(impl Abort + AllocGlobal),
    bytes: &[u8],
    place: usize,
) -> Result<(), Fail> {
    match open(rt.alloc(), bytes)? {
        Err(error) => {
            assert_eq!(rt; error, TableError::BadTable { at: place as u64 });
            Ok(())
        }
        Ok(_table) => Err("no table")?,
    }
}
