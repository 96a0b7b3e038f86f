//! A store of one caller: its rows in memory, and its log on the first strip.
//!
//! Stands for   a history: the map at opening, and the updates since (`specs/Stores.antt`, `history_of`)
//! Promises     each call moves the caller's pass as its answer says (`PassMoves`, history_core); at each moment each
//!              crash image of the strip reopens to the map after the first so many updates, no fewer than were synced
//! Goes in      devices; keys and values
//! Comes out    numbers, values, named refusals, and the devices again
//! Stands on    fault_count, rdb_base, disk_model, frame_journal, entry_code, wal_log, memory_rows, history_core,
//!              session_core
//! Begin at     src/store.rt, `Store`; then src/updating.rt, `StorePass::update`
//! Leaves open  that a call of the strip succeeds, and that memory suffices
//! Bytes        docs/formats.md, "Log payloads"
#![tactic(auto)]

mod answering;
mod closed;
mod closing;
mod open_error;
mod opening;
mod rows;
mod store;
mod store_pass;
mod updating;

pub use closed::Closed;
pub use open_error::OpenError;
pub use session_core::{Found, SyncError, UpdateError};
pub use store::Store;
pub use store_pass::StorePass;

#[cfg(test)]
mod tests;
