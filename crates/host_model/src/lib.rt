//! What a program meets outside itself, and how it is lent and taken back.
//!
//! Stands for   the devices and the streams of a host: what contracts see of them while they are at
//!              home, and how often they failed (`specs/HostState.antt`)
//! Promises     what is handed out is what the host had; what is taken back is what it has then; a
//!              count of faults rises by what the counts of a thing rose while it was out
//! Goes in      a place; the devices of a store and a pair of streams; lines for the notes
//! Comes out    the same devices and streams, and their bytes and crash images where contracts can see them
//! Stands on    fault_count, link_model, disk_model
//! Begin at     src/host.rt, `Host`; src/lending.rt, `Lending`
//! Leaves open  whether a line of the notes is kept, and where it goes
#![tactic(auto)]

mod host;
mod in_memory;
mod lendable;
mod lending;
mod memory_host;
mod place;
mod word;

pub use host::Host;
pub use in_memory::memory_devices;
pub use lendable::Lendable;
pub use lending::Lending;
pub use memory_host::MemoryHost;
pub use place::Place;
pub use word::Word;

#[cfg(test)]
mod tests;
