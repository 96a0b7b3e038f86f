//! Times a segment of the log: entries that are pushed and flushed, and openings of all of them.
//!
//! Stands for   a run on one strip, in memory or in a folder, of so many entries, opened so many times
//! Promises     that it is safe and returns
//! Goes in      three words: the place, `mem` or a folder, the number of entries, and how often they are opened
//! Comes out    how many entries there are and a sum over them, so that nothing is left out; status 2 where the words
//!              are not these, 6 where memory or the strip failed
//! Stands on    rdb_base, disk_model, disk_real, wal_log
//! Begin at     src/filling.rt, `filled`; src/opening.rt, `opened`
//! Leaves open  how long it takes: `bench/log` measures that
#![tactic(auto)]

mod entries;
mod filling;
mod opening;

use crate::filling::filled;
use crate::opening::opened;
use disk_model::{SteadyStrip, Strip};
use disk_real::{FileStrip, Holding};
use std::alloc::Global;
use std::env;
use std::process::ExitCode;

/// The place, the number of entries and the number of openings.
#[derive(Drop)]
struct Words {
    place: String,
    entries: u64,
    times: u32,
}

/// The words of the command line, where they are these.
fn words_of(rt: &HostRuntime) -> Option<Words> {
    let mut args = env::args(rt).ok()?;
    let _program = args.next();
    let place = args.next()?;
    let entries = args.next()?.as_str().parse::<u64>().ok()?;
    let times = args.next()?.as_str().parse::<u32>().ok()?;
    Some(Words {
        place,
        entries,
        times,
    })
}

/// Fills the strip up, and opens it so often. How many entries it has, and the sum over all openings.
fn run<S: Strip + Drop>(alloc: Global, strip: S, words: &Words) -> Option<(u64, u64)> {
    let (mut strip, count) = filled(alloc, strip, words.entries)?;
    let mut sum: u64 = 0;
    for _ in 0..words.times {
        let (again, more) = opened(alloc, strip)?;
        strip = again;
        sum = sum.wrapping_add(more);
    }
    Some((count, sum))
}

fn run_there(rt: &HostRuntime, words: &Words) -> Option<(u64, u64)> {
    let alloc = rt.alloc();
    if words.place.as_str() == "mem" {
        return run(alloc, SteadyStrip::new(alloc, 0), words);
    }
    let folder = words.place.as_str();
    let strip = FileStrip::new(alloc, rt, folder, "log0", 0, Holding::Shared).ok()?;
    run(alloc, strip, words)
}

fn main(rt: HostRuntime) -> ExitCode {
    let Some(words) = words_of(&rt) else {
        return ExitCode::from(2);
    };
    let Some((count, sum)) = run_there(&rt, &words) else {
        return ExitCode::from(6);
    };
    match println!(rt; "{count} {sum}") {
        Ok(()) => ExitCode::from(0),
        Err(_) => ExitCode::from(6),
    }
}
