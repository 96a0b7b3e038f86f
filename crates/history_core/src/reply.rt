use rdb_base::Value;

/// What a session answers. A number names an entry of the history; a front names the map after all entries whose
/// number is below it.
#[derive(Debug, Drop, PartialEq, Eq)]
pub enum Reply {
    /// The update is the entry with this number.
    Done { number: u64 },
    /// The key has this value at the front.
    Value { front: u64, value: Value },
    /// The key has no value at the front.
    Absent { front: u64 },
    /// Each entry below this number outlasts a crash.
    Synced { number: u64 },
    /// The session ends as it was asked to.
    Bye,
    /// The message that begins at this place of the input is refused, and the session ends. The code is that of the
    /// first test that it fails.
    BadMessage { at: u64, code: u8 },
    /// A device failed, and the request changed nothing.
    DeviceFault { device: u8 },
    /// Memory was refused, and the request changed nothing.
    OutOfMemory,
    /// The history has no number left for the update: its next would be this one.
    HistorySpent { number: u64 },
    /// The update needed a compaction, which has no number left: its next would be this one.
    NumbersSpent { next: u64 },
}
