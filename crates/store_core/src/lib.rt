//! A whole store as one machine: its events, one step of each, and what every answer means, whatever the order of events.
//!
//! Stands for   a history with its log; memtables, frozen members, what compactions carried on; files and editions, the
//!              one in use, the settled one, one that is written and one that is made; callers, and pins
//!              (`specs/Worlds.antt`, `World`)
//! Promises     over every list of events: a value found is the one that the history has after the front that is named,
//!              a page is that of the map after the pin's front, and each caller's entries are counted from 0 on; a draft
//!              is the compaction by the plan; no edition has an unsettled entry, the files that editions name stand, and
//!              no log segment that an edition needs is released
//! Goes in      nothing: the crate has types, definitions and laws; a struct that runs events is still to come
//! Comes out    `StoreEvent` and `StoreAnswer`
//! Stands on    rdb_base, partition_plan
//! Begin at     specs/Steps.antt, `step`; src/laws.rt
//! Leaves open  crashes and reopening; that a running store is this machine
#![tactic(auto)]

mod bound;
mod caller;
mod draft;
mod edition;
mod edition_part;
mod edition_parts;
mod frame;
pub mod laws;
mod levels;
pub mod limits;
mod member;
mod member_list;
mod memtable;
mod part_news;
mod part_task;
mod pin;
mod row_list;
mod run_file;
mod run_files;
mod segment;
mod shared_run;
mod store_answer;
mod store_event;
mod store_world_error;
mod version;

pub use bound::Bound;
pub use row_list::RowList;
pub use store_answer::StoreAnswer;
pub use store_event::StoreEvent;
pub use store_world_error::StoreWorldError;

#[cfg(test)]
mod tests;
