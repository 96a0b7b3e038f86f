/// What is kept of a live segment without its entries.
#[derive(Clone, Copy, Debug, PartialEq, Eq)]
pub struct SegmentNumbers {
    /// The segment's number. It stands on the strip of that number modulo 8 (`LOG_STRIPS`).
    pub segment: u64,
    /// The number of its first entry.
    pub first: u64,
    /// Whether it has an entry.
    pub has_entries: bool,
}
