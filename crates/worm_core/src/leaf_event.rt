use rdb_base::{Key, Pair};

/// What may happen in a world of leaves.
#[derive(Debug, Drop)]
pub enum LeafEvent {
    /// A walker's leaf takes a pair of the walker's key.
    Put { walker: u32, pair: Pair },
    /// A full leaf is split. The new leaf has the next number.
    Split { leaf: u32 },
    /// So many splits are in the table that walkers enter by from then on.
    Publish { adds: u64 },
    /// A walker with a key enters, at the leaf that the published table gives.
    Enter { walker: u32, key: Key },
    /// A walker whose leaf does not cover its key goes to the leaf to the right.
    Right { walker: u32 },
    /// A walker whose leaf covers its key reads there.
    Answer { walker: u32 },
}
