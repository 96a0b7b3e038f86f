//! Times the index of several runs: building it, and seeking in it.
//!
//! Stands for   one piece of work over runs that it makes first: building their index, or seeking in it
//! Promises     that it is safe and returns
//! Goes in      five words: the work, `build` or `seek`, and the numbers of runs (at most 8), of pairs a run, of times,
//!              and of rows a seek
//! Comes out    for `seek` a sum of what was read, for `build` of the segments, so that nothing is left out;
//!              status 2 if the words are not these, 6 if there is not enough memory or the sum cannot be written
//! Stands on    rdb_base, remix_view, remix_seek, remix_build
//! Begin at     src/seeks.rt, `sum_of_seeks`
//! Leaves open  how long it takes: `bench/index` measures that
#![tactic(auto)]

mod keys;
mod load;
mod made;
mod seeks;

ghost use Rattle.std.specs.Prelude.{◌≡◌, ◌<◌, ◌≤◌, length};

use crate::load::{Load, Work};
use crate::made::made_runs;
use crate::seeks::sum_of_seeks;
use rdb_base::Steps;
use remix_build::build;
use remix_seek::RunInMemory;
use std::alloc::Global;
use std::env;
use std::marker::Brand;
use std::process::ExitCode;
use std::sync::ledger::{Blank, Ledger};

/// What the words say to do.
fn load_of(rt: &HostRuntime) -> Option<Load> {
    let Ok(mut args) = env::args(rt) else {
        return None;
    };
    let _program = args.next();
    let word = args.next()?;
    let work = match word.as_str() {
        "build" => Work::Build,
        "seek" => Work::Seek,
        _ => return None,
    };
    let runs = args.next()?.as_str().parse::<u8>().ok()?;
    if runs > 8 {
        return None;
    }
    let pairs = args.next()?.as_str().parse::<u32>().ok()?;
    let times = args.next()?.as_str().parse::<u32>().ok()?;
    let rows = args.next()?.as_str().parse::<u32>().ok()?;
    Some(Load {
        work,
        runs,
        pairs,
        times,
        rows,
    })
}

/// The sum of all that a load reads. None if it runs out of memory.
fn sum_of<L: Ledger>(alloc: Global, load: &Load, blank: Blank) -> Option<u64>
    requires name { blank.name ≡ L.name }
    requires parts { blank.parts ≡ L.parts }
    requires some { 0 < blank.parts }
{
    let mut steps = Steps::<L>::begin(blank);
    let runs = made_runs(alloc, load)?;
    match load.work {
        Work::Build => sum_of_builds(alloc, load.times, runs.as_slice(), &mut steps),
        Work::Seek => {
            let index = build(alloc, runs.as_slice(), &mut steps).ok()?;
            Some(sum_of_seeks(load, runs.as_slice(), &index, &mut steps))
        }
    }
}

/// Builds the index so often. How many segments all have together is the answer.
fn sum_of_builds<L: Ledger>(
    alloc: Global,
    times: u32,
    runs: &[RunInMemory],
    steps: &mut Steps<L>,
) -> Option<u64>
    requires { length runs.now ≤ 8 }
{
    let mut sum: u64 = 0;
    for _time in 0..times {
        let index = build(alloc, runs, steps).ok()?;
        sum = sum.wrapping_add(index.view.segments() as u64);
    }
    Some(sum)
}

fn main(rt: HostRuntime) -> ExitCode {
    let Some(load) = load_of(&rt) else {
        return ExitCode::from(2);
    };
    let Some(sum) = sum_of::<Brand>(rt.alloc(), &load, Blank::new(1)) else {
        return ExitCode::from(6);
    };
    match println!(rt; "{sum}") {
        Ok(()) => ExitCode::from(0),
        Err(_) => ExitCode::from(6),
    }
}
