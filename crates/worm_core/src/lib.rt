//! Leaves that split while walkers enter by tables that are older than the leaves: the pure machine.
//!
//! Stands for   leaves over all keys, the splits in order, how many of them are published, and walkers
//!              (`specs/Worlds.antt`, `World`)
//! Promises     over every list of events: an answer is in the leaf that covers its key, and is the last change put
//!              there; a walker goes right no more often than there are splits that its table lacked; no walk is stuck
//! Goes in      events: puts, splits, publishes, and what walkers do
//! Comes out    an answer for each event, or the place of the first one that has no step
//! Stands on    rdb_base, worm_leaf, meta_trie
//! Begin at     specs/Events.antt, `StepsTo`; src/laws.rt; src/leaf_world.rt, `LeafWorld`
//! Leaves open  that there is memory; that threads take their steps one after the other, as events do
#![tactic(auto)]

mod answering;
mod covering;
mod entering;
mod going_right;
pub mod laws;
mod leaf_answer;
mod leaf_event;
mod leaf_world;
mod leaf_world_error;
pub mod limits;
mod putting;
mod refused;
mod split;
mod splitting;
mod standing;
mod state;
mod walker;

pub use leaf_answer::LeafAnswer;
pub use leaf_event::LeafEvent;
pub use leaf_world::LeafWorld;
pub use leaf_world_error::LeafWorldError;
pub use limits::LEAVES_MAX;

#[cfg(test)]
mod run_tests;
#[cfg(test)]
mod tests;
