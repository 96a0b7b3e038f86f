//! Times the two structures of the memory table: finds over a trie of anchors, and puts into leaves.
//!
//! Stands for   a run of one of two works, of so many keys, so many times
//! Promises     that it is safe and returns
//! Goes in      three words: the work, `find` or `put`, the number of keys, and how often
//! Comes out    a sum of what was found, so that nothing is left out; status 2 where the words are not these
//! Stands on    rdb_base, worm_leaf, meta_trie
//! Begin at     src/finds.rt, `find_all`; src/puts.rt, `put_all`
//! Leaves open  how long it takes: `bench/memory` measures that
#![tactic(auto)]

mod finds;
mod keys;
mod puts;

use crate::finds::find_all;
use crate::puts::put_all;
use std::env;
use std::process::ExitCode;

/// The work, the number of keys and the number of times, where the words say that.
fn words_of(rt: &HostRuntime) -> Option<(bool, u32, u32)> {
    let Ok(mut args) = env::args(rt) else {
        return None;
    };
    let _program = args.next();
    let work = args.next()?;
    let finds = match work.as_str() {
        "find" => true,
        "put" => false,
        _ => return None,
    };
    let size = args.next()?.as_str().parse::<u32>().ok()?;
    let times = args.next()?.as_str().parse::<u32>().ok()?;
    Some((finds, size, times))
}

fn main(rt: HostRuntime) -> ExitCode {
    let Some((finds, size, times)) = words_of(&rt) else {
        return ExitCode::from(2);
    };
    let sum = if finds {
        find_all(rt.alloc(), size, times)
    } else {
        put_all(rt.alloc(), size, times)
    };
    let Some(sum) = sum else {
        return ExitCode::from(6);
    };
    match println!(rt; "{sum}") {
        Ok(()) => ExitCode::from(0),
        Err(_) => ExitCode::from(6),
    }
}
