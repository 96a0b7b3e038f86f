//! One history for all callers: one shared word, its length, and what each holder of a seat knows of it.
//!
//! Stands for   one list of entries that only grows, and for each seat a part of it (`specs/Rule.antt`, `Sound`)
//! Promises     an entry is appended once, at the number that is answered; what a pass has seen is a front of the one
//!              list, and never gets shorter; a leaf has all entries of its range; at the end the list has
//!              each caller's calls, in order, and nobody else's
//! Goes in      entries, keys and numbers; the passes, marks and notes themselves
//! Comes out    numbers of entries, and passes, marks and notes that have seen more
//! Stands on    rdb_base for entries, disk_model for the names of books, seat_parts for its lemmas; of the kit,
//!              atomic_table for the word and its seats
//! Begin at     src/appending.rt, `append`; for the rule specs/Rule.antt, for the words of contracts specs/Known.antt
//! Leaves open  that a step ever comes to its turn; how callers compare who never met
//!
//! The word is the number after the last entry's. The list itself is there in proofs alone. Who holds what:
//!
//!     pen          under the log's lock     knows the whole list, and alone makes it longer
//!     leaf mark    beside its leaf          knows all entries of its range in its memtable
//!     pass         with its caller          knows what the caller has seen, and the caller's own calls
//!     note, pin    anywhere                 knows a front of the list
//!     keeper       under a lock of its own  keeps the numbers of the first live segment and of the next table
//!     live note    anywhere                 knows the keeper's numbers at some time
//!
//! The keeper is for the compactor, which makes table files of ended memtables, and is not there yet. What the log has
//! for good, and that a device failed, is the word of whoever calls: no clause here speaks of files.
#![tactic(auto)]

mod appending;
mod desk;
mod ending;
mod front;
mod front_blank;
mod front_note;
mod keeper;
mod keeping;
mod kinds;
mod leaf_mark;
mod learning;
mod live_note;
mod memtables;
mod noting;
mod origin;
mod parts;
mod pass;
mod pen;
mod pin_mark;
mod plays;
mod rule;
mod settling;
mod store_name;
mod told;

pub use appending::{HistorySpent, append};
pub use desk::Desk;
pub use ending::end;
pub use front::{Front, FrontParts};
pub use front_blank::FrontBlank;
pub use front_note::FrontNote;
pub use keeper::Keeper;
pub use keeping::{keep, learn_next, live_meet, release_mark};
pub use leaf_mark::LeafMark;
pub use learning::{catch_up, learn, look, meet};
pub use live_note::LiveNote;
pub use memtables::{ended, freeze, part};
pub use noting::{base_note, note, pin, tell};
pub use origin::Origin;
pub use parts::{Ended, LeafPart, LivePart, NotePart, Part, PassPart, PenPart};
pub use pass::Pass;
pub use pen::Pen;
pub use pin_mark::PinMark;
pub use rule::FrontRule;
pub use settling::{failed, settled};
pub use store_name::StoreName;

/// Out of memory, where that is the only refusal.
pub type NoMemory = std::alloc::AllocError;

#[cfg(test)]
mod tests;
