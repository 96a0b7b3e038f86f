//! Requests and replies of a session as bytes: one grammar, written and read.
//!
//! Stands for   the spelling of each request and reply, a length and a body (`specs/Grammar.antt`), and the first test
//!              that a refused message fails (`specs/Decoding.antt`, `refusal`)
//! Promises     what is spelled is read back, however the bytes are cut; what is read was spelled so; a message is
//!              refused exactly where it is in no grammar, with its place and code; no spelling begins another
//! Goes in      requests and replies to spell; pieces of bytes to read, or a source of them
//! Comes out    bytes; requests, or a refusal with its place in the input
//! Stands on    rdb_base, history_core, link_model, fault_count
//! Used by      session_core, remixdb
//! Begin at     src/decoder.rt, `Decoder::request`; src/codes.rt has the numbers
//! Leaves open  that memory is there, that a source gives bytes
//! Bytes        docs/formats.md, "Messages"
#![tactic(auto)]

mod body_error;
pub mod codes;
mod decoder;
mod filling;
pub mod laws;
mod limits;
mod reading;
mod refused;
mod wire_error;
mod writing;

pub use decoder::Decoder;
pub use history_core::{Reply, Request};
pub use limits::{BODY_MAX, LENGTH_SIZE, MESSAGE_MAX, REPLY_MAX};
pub use wire_error::WireError;
pub use writing::{spell_reply, spell_request};

#[cfg(test)]
mod tests;
