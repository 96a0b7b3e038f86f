//! A trie that many readers read without a lock while one writer adds anchors to it.
//!
//! Stands for   a switch's name, the anchors that are published, those that are appended and not published yet
//!              (`specs/Published.antt`, `WriterState`), and for each reader the anchors that it has seen (`FrontState`)
//! Promises     an entry gives the leaf of the key by anchors that were appended on the reader's switch, and these begin
//!              with all that the reader has seen before; a reader that the writer hands out has seen all that is
//!              published; a publish shows all appended anchors at once, or none
//! Goes in      anchors with their leaves; keys
//! Comes out    leaves, each with the number of anchors that gave it; fronts, to be compared; `TrieFull`, exactly where
//!              the trie would answer it
//! Stands on    rdb_base, worm_leaf, meta_trie; of the kit left_right, which has the two copies, and logbook
//! Begin at     src/switch.rt, `Switch::make`; src/trie_reader.rt; src/trie_writer.rt; src/front.rt
//! Leaves open  that there is memory; that a wait ends: a publish waits for readers that are inside, and so does the end
//!              of a writer; that an entry of a reader that was there before sees a publish that has answered
#![tactic(auto)]

mod appended;
mod ends;
mod front;
mod publishing;
mod raw_publishing;
mod roll;
mod switch;
mod told;
mod trail;
mod trie_copy;
mod trie_reader;
mod trie_writer;

pub use ends::{Ends, RawWriter, Waits};
pub use front::Front;
pub use switch::Switch;
pub use trail::Trail;
pub use trie_reader::TrieReader;
pub use trie_writer::TrieWriter;

#[cfg(test)]
mod tests;
