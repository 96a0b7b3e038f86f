//! Times the published trie: entries of several readers, beside a writer or not, and publishes.
//!
//! Stands for   a run of one of six works, by so many readers, so many times
//! Promises     that it is safe, and that each work but those with threads returns
//! Goes in      three words: the work, which is `find`, `enter`, `beside`, `append`, `publish` or `rounds`; the number of
//!              readers, and how often
//! Comes out    a sum of what was found, or a count, so that nothing is left out; status 2 where the words are not these
//! Stands on    rdb_base, worm_leaf, meta_trie, table_switch
//! Begin at     src/reading.rt, `enter_all`; src/writing.rt, `publish_all`; src/rounds.rt
//! Leaves open  how long it takes: `bench/switch` measures that
#![tactic(auto)]

mod anchors;
mod keys;
mod reading;
mod rounds;
mod work;
mod writing;

use crate::reading::{enter_all, enter_beside, find_all};
use crate::rounds::make_and_drop;
use crate::work::{Work, words_of};
use crate::writing::{append_all, publish_all};
use std::process::ExitCode;

fn main(rt: HostRuntime) -> ExitCode {
    let Some((work, readers, times)) = words_of(&rt) else {
        return ExitCode::from(2);
    };
    let alloc = rt.alloc();
    let sum = match work {
        Work::Find => find_all(&rt, alloc, readers, times),
        Work::Enter => enter_all(&rt, alloc, readers, times),
        Work::Beside => enter_beside(&rt, alloc, readers, times),
        Work::Append => append_all(&rt, alloc, readers, times),
        Work::Publish => publish_all(&rt, alloc, readers, times),
        Work::Rounds => make_and_drop(&rt, alloc, readers, times),
    };
    let Some(sum) = sum else {
        return ExitCode::from(6);
    };
    match println!(rt; "{sum}") {
        Ok(()) => ExitCode::from(0),
        Err(_) => ExitCode::from(6),
    }
}
