//! Times editions: decoding one, encoding it, and copying its fields.
//!
//! Stands for   one piece of work over an edition that it makes first, done so often
//! Promises     that it is safe and returns
//! Goes in      four words: the work, `decode`, `encode` or `copy`, and the numbers of partitions, of runs a partition
//!              (1 to 8), and of times
//! Comes out    a sum over what was made, so that nothing is left out; status 2 if the words are not these, 6 if there
//!              is not enough memory, the sum cannot be written, or there is no such edition
//! Stands on    edition_code
//! Begin at     src/works.rt, `sum_of`
//! Leaves open  how long it takes: `bench/edition` measures that
#![tactic(auto)]

mod load;
mod made;
mod works;

use crate::load::{Load, Work};
use crate::works::sum_of;
use std::env;
use std::process::ExitCode;

/// What the words say to do.
fn load_of(rt: &HostRuntime) -> Option<Load> {
    let mut args = env::args(rt).ok()?;
    let _program = args.next();
    let word = args.next()?;
    let work = match word.as_str() {
        "decode" => Work::Decode,
        "encode" => Work::Encode,
        "copy" => Work::Copy,
        _ => return None,
    };
    let partitions = args.next()?.as_str().parse::<u32>().ok()?;
    let runs = args.next()?.as_str().parse::<u8>().ok()?;
    let times = args.next()?.as_str().parse::<u32>().ok()?;
    Some(Load {
        work,
        partitions,
        runs,
        times,
    })
}

fn main(rt: HostRuntime) -> ExitCode {
    let Some(load) = load_of(&rt) else {
        return ExitCode::from(2);
    };
    let Some(sum) = sum_of(rt.alloc(), &load) else {
        return ExitCode::from(6);
    };
    match println!(rt; "{sum}") {
        Ok(()) => ExitCode::from(0),
        Err(_) => ExitCode::from(6),
    }
}
