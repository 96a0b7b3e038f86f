use rdb_base::Entry;
use std::marker::Model;

/// A live segment of a log with its entries.
#[derive(Debug, Drop)]
pub struct SegmentContent {
    /// The segment's number.
    pub segment: u64,
    /// The number of its first entry.
    pub first: u64,
    /// Its entries in order.
    pub entries: Vec<Entry>,
}

impl Model for SegmentContent {
    ghost use Rattle.wal_log.specs.LogValues.{SegmentValue};

    ghost Value = { SegmentValue };

    ghost view = { λ s. record { segment = s.segment; first = s.first; entries = s.entries.items } };
}
