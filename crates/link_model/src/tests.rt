//! Each public call once: faults on purpose, a room that is passed, and a wire that notes its calls.
mod calls;
mod memory;
mod pairs;
mod wire;
