//! Times a major compaction, new pairs merged into a partition of several runs; and the plan.
//!
//! Stands for   so many merges of the same new pairs into a partition that it makes first, or so many plans
//! Promises     that it is safe and returns
//! Goes in      a word and numbers: `merge` or `hold`, and the numbers of runs (at most 8), of keys in all runs, of new
//!              pairs, and of merges; or `plan`, and the numbers of members and of plans
//! Comes out    the sum of the rows and of their sizes over all merges, or of the splits over all plans; status 2 if the
//!              words are not these, 6 if there is not enough memory or the sum cannot be written
//! Stands on    rdb_base, remix_view, remix_seek, remix_build, partition_set, partition_plan, partition_merge
//! Begin at     src/merging.rt, `sum_of_merges`
//! Leaves open  how long it takes, and how much memory: `bench/merge` measures that
#![tactic(auto)]

mod load;
mod made;
mod merging;
mod planning;
mod words;

ghost use Rattle.std.specs.Prelude.{◌≡◌, ◌<◌};

use crate::load::Load;
use crate::words::load_of;
use rdb_base::Steps;
use std::alloc::Global;
use std::marker::Brand;
use std::process::ExitCode;
use std::sync::ledger::{Blank, Ledger};

/// The sum of a load. None if it runs out of memory.
fn sum_of<L: Ledger>(alloc: Global, load: &Load, blank: Blank) -> Option<u64>
    requires name { blank.name ≡ L.name }
    requires parts { blank.parts ≡ L.parts }
    requires some { 0 < blank.parts }
{
    let mut steps = Steps::<L>::begin(blank);
    match load {
        Load::Merge(load) => merging::sum_of(alloc, load, false, &mut steps),
        Load::Hold(load) => merging::sum_of(alloc, load, true, &mut steps),
        Load::Plan(load) => planning::sum_of(alloc, load),
    }
}

fn main(rt: HostRuntime) -> ExitCode {
    let Some(load) = load_of(&rt) else {
        return ExitCode::from(2);
    };
    let Some(sum) = sum_of::<Brand>(rt.alloc(), &load, Blank::new(1)) else {
        return ExitCode::from(6);
    };
    match println!(rt; "{sum}") {
        Ok(()) => ExitCode::from(0),
        Err(_) => ExitCode::from(6),
    }
}
