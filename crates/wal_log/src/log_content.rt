use crate::SegmentContent;
use std::marker::Model;

/// The entries of a log, live segment by live segment. Each segment begins where the entries before it end.
#[derive(Debug, Drop)]
pub struct LogContent {
    /// The number of the first entry; 0 if no segment is live.
    pub start: u64,
    /// The number after the last entry, at most 2^62.
    pub end: u64,
    /// The live segments, numbered one after another.
    pub segments: Vec<SegmentContent>,
}

impl Model for LogContent {
    ghost use Rattle.wal_log.specs.LogValues.{LogValue};

    ghost Value = { LogValue };

    ghost view = { λ l. record { start = l.start; end = l.end; segments = l.segments.items } };
}
