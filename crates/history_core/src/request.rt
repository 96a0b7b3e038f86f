use rdb_base::{Key, Row};

/// What a session is asked.
#[derive(Debug, Drop, PartialEq, Eq)]
pub enum Request {
    /// The key is to have this value.
    Put { row: Row },
    /// The key is to have no value.
    Delete { key: Key },
    /// Which value has the key?
    Get { key: Key },
    /// All updates so far are to outlast a crash.
    Sync,
    /// The session is to end.
    Quit,
}
