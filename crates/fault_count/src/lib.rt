//! How often something failed: a count that never falls, and the cause of each failure that a call answers.
//!
//! Stands for   a number of failures, up to the last value 2^64 - 1 (`specs/Counts.antt`)
//! Promises     a failure raises the count by one; a sum adds two counts; at the last value it stands still
//! Goes in      failures, one by one or many at once
//! Comes out    the count
//! Stands on    nothing
//! Begin at     src/fault_count.rt, `FaultCount::rise`; `specs/Causes.antt`, `HasCause`
//! Leaves open  what failed, and whose count it is: the crates above say it
#![tactic(auto)]

mod fault_count;
pub mod limits;

pub use fault_count::FaultCount;
pub use limits::COUNT_MAX;

#[cfg(test)]
mod tests;
