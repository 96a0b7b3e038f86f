ghost use Rattle.std.specs.Prelude.{◌≡◌, map};
ghost use Rattle.wal_log.specs.Openings.{Numbers};
ghost use Rattle.wal_log.specs.LogValues.{numbers_of};
ghost use Rattle.wal_log.specs.Strips.{strip_in};

use crate::open_strips::OpenStrips;
use crate::{LogContent, SegmentNumbers};
use disk_model::Strip;
use std::marker::Model;

/// A log that was opened and is not yet written to: its strips, and the numbers of its live segments. Its entries are not
/// kept.
#[derive(Drop)]
pub struct RawLog<S: Strip> {
    strips: OpenStrips<S>,
    first: u64,
    start: u64,
    end: u64,
    segments: Vec<SegmentNumbers>,
}

impl<S: Strip> Model for RawLog<S> {
    ghost use Rattle.wal_log.specs.RawLogState.{RawLogState};

    ghost Value = { RawLogState S };

    ghost view = { λ r. record {
      journals = r.strips;
      first = r.first;
      start = r.start;
      end = r.end;
      segments = r.segments.items;
    } };
}

impl<S: Strip> RawLog<S> {
    /// The segment that the log was to begin with.
    pub fn first(&self) -> u64
        ensures { result ≡ self.now.first }
    {
        self.first
    }

    /// The number of the first entry; 0 if no segment is live.
    pub fn start(&self) -> u64
        ensures { result ≡ self.now.start }
    {
        self.start
    }

    /// The number after the last entry.
    pub fn end(&self) -> u64
        ensures { result ≡ self.now.end }
    {
        self.end
    }

    /// The live segments, numbered one after another.
    pub fn segments(&self) -> &[SegmentNumbers]
        ensures { result.now ≡ self.now.segments }
    {
        &self.segments
    }
}

impl<S: Strip + Drop> RawLog<S> {
    /// A log on these strips, with this content.
    pub(crate) fn of(
        strips: OpenStrips<S>,
        first: u64,
        content: &LogContent,
        segments: Vec<SegmentNumbers>,
    ) -> RawLog<S>
        requires { segments.items ≡ map numbers_of content.now.segments }
        ensures journals { result.journals ≡ strips }
        ensures numbers { Numbers first result content.now }
    {
        RawLog {
            strips,
            first,
            start: content.start,
            end: content.end,
            segments,
        }
    }

    /// The strips in order. It takes no memory.
    pub fn into_strips(self) -> Vec<S>
        ensures { result.items ≡ map strip_in self.journals }
    {
        let RawLog { strips, .. } = self;
        strips.into_strips()
    }
}
