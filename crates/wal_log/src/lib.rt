//! A log: entries in order, in segments on eight strips, of which each has one segment at a time.
//!
//! Stands for   the entries of the live segments, in order (`specs/Segments.antt`, `log_of`); of one segment alone,
//!              `alone` in `specs/Logs.antt`
//! Promises     an opening of eight strips gives exactly the log that they have, or the first refusal of one fixed order,
//!              and writes nothing. Of a segment that is written to, each crash image has the first so many entries at
//!              each moment, no fewer than were synced before; after a flush that succeeds it has all
//! Goes in      strips, and entries
//! Comes out    the entries, segment by segment; the number after the last one; a fault of a strip, as its unit; why
//!              strips are refused
//! Stands on    rdb_base, fault_count, disk_model, frame_journal, entry_code
//! Begin at     src/log.rt, `Log::open`; src/segment.rt, `Segment::flush`
//! Leaves open  that a call of a strip succeeds; a log of several segments is read here, and not yet written
//! Bytes        docs/formats.md, "Log payloads" and "Segments of a log"
#![tactic(auto)]

mod contents;
mod flushing;
pub mod limits;
mod live;
mod log;
mod log_content;
mod log_error;
mod open_strips;
mod raw_log;
mod reading;
mod segment;
mod segment_content;
mod segment_header;
mod segment_numbers;
mod starting;
mod strip_frames;
mod told;

pub use limits::PENDING_MAX;
pub use log::Log;
pub use log_content::LogContent;
pub use log_error::LogError;
pub use raw_log::RawLog;
pub use segment::Segment;
pub use segment_content::SegmentContent;
pub use segment_numbers::SegmentNumbers;

#[cfg(test)]
mod tests;
