//! One session: requests are taken from a source, answered by a store, and their replies put to a sink.
//!
//! Stands for   a conversation: the requests that came, the replies that were put, and what the caller then knows of
//!              the history (`specs/Conversations.antt`, `SessionEnds`)
//! Promises     each request gets one reply, in order, and the replies are those of one session over the history, to
//!              which others may add (`specs/Laws.antt`); a session ends by a named cause, and a refused message gets
//!              its place and code; a failure of a device is told with a unit of that device's book
//! Goes in      a store that `Answers`, a source and a sink
//! Comes out    how the session ended, how many replies were decided, and the units of failures
//! Stands on    wire_protocol, history_core, rdb_base, link_model, disk_model, fault_count
//! Used by      remixdb
//! Begin at     src/session.rt, `run_session`
//! Leaves open  that a source gives more bytes, that a sink takes them
#![tactic(auto)]

mod answers;
mod deciding;
mod filling;
mod found;
pub mod laws;
mod limits;
mod pin_error;
mod rooms;
mod session;
mod session_end;
mod session_out;
mod sync_error;
mod update_error;

pub use answers::Answers;
pub use found::Found;
pub use limits::SESSION_MAX;
pub use pin_error::PinError;
pub use session::run_session;
pub use session_end::SessionEnd;
pub use session_out::SessionOut;
pub use sync_error::SyncError;
pub use update_error::UpdateError;

#[cfg(test)]
mod tests;
