//! Times tables: building one, the SHA-256 of its bytes, opening them, and reading pairs.
//!
//! Stands for   one of four works on the table of a run that it makes first
//! Promises     that it is safe and returns
//! Goes in      four words: the work (`build`, `hash`, `open` or `read`), the number of pairs, the bytes of each value
//!              (at most 65,535), and how often
//! Comes out    a sum of what was made or read, so that nothing is left out; status 2 if the words are not these, 6 if
//!              there is not enough memory or the sum cannot be written
//! Stands on    rdb_base, remix_seek, table_file
//! Begin at     src/works.rt, `sum_of`
//! Leaves open  how long it takes: `bench/table` measures that
#![tactic(auto)]

mod load;
mod made;
mod works;

ghost use Rattle.std.specs.Prelude.{◌≡◌, ◌<◌};

use crate::load::{Load, Work};
use crate::made::made_run;
use crate::works::sum_of;
use rdb_base::Steps;
use std::alloc::Global;
use std::env;
use std::marker::Brand;
use std::process::ExitCode;
use std::sync::ledger::{Blank, Ledger};

/// What the words say to do.
fn load_of(rt: &HostRuntime) -> Option<Load> {
    let Ok(mut args) = env::args(rt) else {
        return None;
    };
    let _program = args.next();
    let word = args.next()?;
    let work = match word.as_str() {
        "build" => Work::Build,
        "hash" => Work::Hash,
        "open" => Work::Open,
        "read" => Work::Read,
        _ => return None,
    };
    let pairs = args.next()?.as_str().parse::<u32>().ok()?;
    let value_len = args.next()?.as_str().parse::<u16>().ok()?;
    let times = args.next()?.as_str().parse::<u32>().ok()?;
    Some(Load {
        work,
        pairs,
        value_len,
        times,
    })
}

/// The sum of a load's work. None if it has no pair, or runs out of memory.
fn sum_of_load<L: Ledger>(alloc: Global, load: &Load, blank: Blank) -> Option<u64>
    requires name { blank.name ≡ L.name }
    requires parts { blank.parts ≡ L.parts }
    requires some { 0 < blank.parts }
{
    let mut steps = Steps::<L>::begin(blank);
    let run = made_run(alloc, load)?;
    sum_of(alloc, load, &run, &mut steps)
}

fn main(rt: HostRuntime) -> ExitCode {
    let Some(load) = load_of(&rt) else {
        return ExitCode::from(2);
    };
    let Some(sum) = sum_of_load::<Brand>(rt.alloc(), &load, Blank::new(1)) else {
        return ExitCode::from(6);
    };
    match println!(rt; "{sum}") {
        Ok(()) => ExitCode::from(0),
        Err(_) => ExitCode::from(6),
    }
}
