//! A store's devices as files of a folder: the edge where bytes meet the system.
//!
//! Stands for   nothing that contracts can see: a file's bytes may change outside the program
//! Promises     each failed call is one unit drawn from the device's own book, and no other call draws one
//! Goes in      a runtime that reaches files, the folder's path, the device's number
//! Comes out    bytes, lengths and numbers, as the system gave them
//! Stands on    fault_count, disk_model
//! Begin at     src/file_strip.rt, `FileStrip`; src/real.rt, `real_devices`
//! Leaves open  what the system does with the bytes: that is trusted, and tested
//! Names        docs/formats.md, "Names in the folder"
#![tactic(auto)]

mod file_shelf;
mod file_strip;
mod folder;
mod holding;
mod names;
mod opening;
mod reading;
mod real;
mod real_shelf;
mod real_strip;

pub use file_shelf::FileShelf;
pub use file_strip::FileStrip;
pub use holding::Holding;
pub use names::{MANIFEST_NAMES, log_name};
pub use opening::can_be_folder;
pub use real::real_devices;
pub use real_shelf::RealShelf;
pub use real_strip::RealStrip;

#[cfg(test)]
mod tests;
