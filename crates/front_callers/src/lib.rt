//! Two callers of one history, each in a thread of its own: what a client of `front_rule` can promise.
//!
//! Stands for   the kernel of a store of several callers: the pen and one leaf's mark under a lock, and a pass for
//!              each caller
//! Promises     after both have ended there is one list with the rows of both, each once and in order, and nobody
//!              else's (`specs/Callers.antt`, `HasBoth`)
//! Goes in      the rows that each caller puts
//! Comes out    the number after the last entry's; None where memory or numbers ran out
//! Stands on    rdb_base, front_rule
//! Begin at     src/two_callers.rt, `run_two_callers`
//! Leaves open  that a thread comes to its turn; in which order the rows of different callers stand
#![tactic(auto)]

mod putting;
mod shared_history;
mod two_callers;

pub use shared_history::SharedHistory;
pub use two_callers::{run_both, run_two_callers};

#[cfg(test)]
mod tests;
