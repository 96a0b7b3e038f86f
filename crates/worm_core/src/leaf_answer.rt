use rdb_base::Change;

/// What an event answers.
#[derive(Debug, Drop)]
pub enum LeafAnswer {
    /// Of a put, a split and a publish.
    Done,
    /// Of a walker that entered or went right: the leaf that it stands on.
    At {
        leaf: u32,
    },
    /// Of a walker that answered: its leaf, the change there at its key, and how often it went right.
    Found {
        leaf: u32,
        change: Option<Change>,
        rights: u64,
    },
}
