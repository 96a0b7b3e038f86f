//! What a seat knows, in parts. No value of these types is made: they are there in proofs alone.
//!
//! Places are counted from the history's first entry. So what was seen is as long as the place of its end.
use rdb_base::Entry;
use std::collections::LinkedList;

/// What the pen knows: all.
pub struct PenPart {
    /// The entries of the history, in order.
    pub list: LinkedList<Entry>,
    /// The number of the open memtable.
    pub memtable: u64,
    /// The places at which the memtables begin, the open one's last.
    pub bases: LinkedList<u64>,
    /// The place below which the log has all entries for good, as its holder said: it is the greatest that `settled`
    /// was told. No clause here speaks of the log.
    pub safe: u64,
    /// The number of the first segment of the log that is still needed.
    pub live: u64,
    /// The number of the next table file.
    pub next: u64,
    /// How many failures of the log's devices were told to passes.
    pub failed: u64,
    /// How many callers have got a pass.
    pub made: u64,
    /// The callers whose passes have ended.
    pub ended: LinkedList<Ended>,
}

/// A caller whose pass has ended, and its calls.
pub struct Ended {
    pub caller: u64,
    pub calls: LinkedList<Entry>,
}

/// What the mark of a leaf knows: a front of the list that has all entries of the leaf's range.
pub struct LeafPart {
    /// The number of its memtable.
    pub memtable: u64,
    /// The places at which the memtables up to this one begin.
    pub bases: LinkedList<u64>,
    /// The least key of its range.
    pub low: LinkedList<u8>,
    /// The key at which its range ends, if it ends.
    pub high: Option<LinkedList<u8>>,
    pub list: LinkedList<Entry>,
}

/// What a pass knows: what its caller has seen, and the caller's own calls.
pub struct PassPart {
    pub caller: u64,
    /// A front of the list.
    pub seen: LinkedList<Entry>,
    /// The caller's calls, in order: the entries that it appended.
    pub own: LinkedList<Entry>,
    /// The number of the memtable in which `seen` ends.
    pub memtable: u64,
    /// The places at which the memtables up to that one begin.
    pub bases: LinkedList<u64>,
    /// A place that the pen had as its safe one: below it the log has all entries for good, as the log's holder said.
    pub safe: u64,
    /// The number of the next table file, as far as it was told.
    pub next: u64,
    /// How many failures of the log's devices had been told when the last one was told to this pass; 0 where none was.
    pub told: u64,
}

/// What a note or a pin knows: a front of the list.
pub struct NotePart {
    pub list: LinkedList<Entry>,
    /// The number of the memtable in which it ends.
    pub memtable: u64,
    /// The places at which the memtables up to that one begin.
    pub bases: LinkedList<u64>,
    /// A place that the pen had as its safe one.
    pub safe: u64,
}

/// What the keeper and a live note know.
pub struct LivePart {
    /// The number of the first segment of the log that is still needed.
    pub live: u64,
    /// The number of the next table file.
    pub next: u64,
    /// How many failures of the devices of tables were told. No call raises it so far.
    pub failed: u64,
}

/// A part of what a seat knows. A seat has one part, and more for the time of a step.
pub enum Part {
    Pen(PenPart),
    Leaf(LeafPart),
    Pass(PassPart),
    Note(NotePart),
    Keeper(LivePart),
    Live(LivePart),
}
