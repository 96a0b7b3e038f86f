//! A segment is opened, and each of its entries looked at.
use crate::entries::weight_of;
use disk_model::Strip;
use std::alloc::Global;
use wal_log::Segment;

/// Opens the strip's segment. The strip, and the sum over its entries.
pub(crate) fn opened<S: Strip + Drop>(alloc: Global, strip: S) -> Option<(S, u64)> {
    let (segment, entries) = Segment::open(alloc, strip, 0, 0).ok()?;
    let mut sum: u64 = 0;
    for entry in &entries {
        sum = sum.wrapping_add(weight_of(entry));
    }
    Some((segment.into_strip(), sum))
}
