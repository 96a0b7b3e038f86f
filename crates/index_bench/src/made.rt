//! The runs that are read.
ghost use Rattle.std.specs.Prelude.{◌<◌, ◌≤◌, length, IfSome};

use crate::keys::{is_in, key_of};
use crate::load::Load;
use rdb_base::{Change, Key, Pair, Value};
use remix_seek::RunInMemory;
use std::alloc::Global;

/// The bytes of a value.
const VALUE_LEN: usize = 100;

/// How many keys all runs together have: eleven pairs are ten keys.
pub(crate) fn keys_in_all(load: &Load) -> u64
    ensures { 0 < result }
{
    load.runs as u64 * load.pairs as u64 * 10 / 11 + 1
}

/// All runs, the newest first. None if they are more than 8, or it runs out of memory.
pub(crate) fn made_runs(alloc: Global, load: &Load) -> Option<Vec<RunInMemory>>
    ensures { IfSome result (λ runs. length runs.items ≤ 8) }
{
    let keys = keys_in_all(load);
    let mut runs = Vec::new(alloc);
    for run in 0..load.runs {
        let made = made_run(alloc, run, load.runs, keys)?;
        runs.push(made).ok()?;
    }
    if runs.len() > 8 {
        return None;
    }
    Some(runs)
}

fn made_run(alloc: Global, run: u8, runs: u8, keys: u64) -> Option<RunInMemory>
    requires some { 0 < runs }
    requires keys { 0 < keys }
{
    let mut pairs = Vec::new(alloc);
    for place in 0..keys {
        if is_in(place, run as u64, runs as u64) {
            pairs.push(made_pair(alloc, place, run, keys)?).ok()?;
        }
    }
    RunInMemory::of(pairs)
}

fn made_pair(alloc: Global, place: u64, run: u8, keys: u64) -> Option<Pair>
    requires { 0 < keys }
{
    let key = Key::try_new(alloc, &key_of(place, keys)).ok()?;
    let filled = [((place % 256) as u8).wrapping_add(run); VALUE_LEN];
    let value = Value::try_new(alloc, &filled).ok()?;
    Some(Pair {
        key,
        change: Change::Put(value),
    })
}
