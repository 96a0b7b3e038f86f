use crate::bound::Bound;
use rdb_base::{Key, Pair};

/// What may happen next in a store.
#[derive(Debug, Drop)]
pub enum StoreEvent {
    /// A caller's update gets the next number.
    Append { caller: u32, pair: Pair },
    /// A caller takes the version that is current: what the installed memtable is above.
    Take { caller: u32 },
    /// A caller looks at a key in the version that it holds, up to a front.
    Look { caller: u32, key: Key, front: u64 },
    /// A caller hears of all entries so far.
    Note { caller: u32 },
    /// The log writes all unsettled entries as one frame, whose gate is closed.
    Body,
    /// The frame's gate is opened.
    Gate,
    /// The frame is settled: no crash takes it.
    Settled,
    /// The log begins its next segment.
    Header,
    /// The installed memtable ends, and the next one is open.
    Freeze,
    /// The open memtable is installed, and the one before it is frozen.
    Install,
    /// A caller pins the levels below the installed memtable.
    Pin { caller: u32 },
    /// A page of a pin, from a bound on, of at most so many rows.
    List { pin: u32, bound: Bound, count: u16 },
    /// A compaction is planned over all frozen members.
    Plan { may_abort: bool },
    /// The next file of the draft is put.
    Table,
    /// The draft's edition is written.
    EditionGate,
    /// The edition that was written is settled.
    EditionSettled,
    /// The draft is dropped.
    Refuse,
    /// The draft's edition is used.
    Adopt,
    /// Log segments that the used edition does not need are let go.
    Release,
    /// A file that no edition names is removed.
    Remove { number: u64 },
}
