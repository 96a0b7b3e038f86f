//! Reads the frames of all strips as a log.
ghost use Rattle.std.specs.Prelude.{◌≡◌, ◌+◌, ◌≤◌, [], None, length, drop, map, IfOk};
ghost use Rattle.disk_model.specs.declared.limits.TheConstants.{LOG_STRIPS};
ghost use Rattle.rdb_base.specs.declared.limits.TheConstants.{NUMBER_MAX};
ghost use Rattle.wal_log.specs.Answers.{GivesLog};
ghost use Rattle.wal_log.specs.LogValues.{AreNumberedFrom, IsContent, end_from, numbers_of};
ghost use Rattle.wal_log.specs.Segments.{content_of, contents_from, log_of};

use crate::live::{headers_of, live_segments, start_of, stray};
use crate::reading::{entries_after, split};
use crate::segment_header::SegmentHeader;
use crate::strip_frames::StripFrames;
use crate::{LogContent, LogError, SegmentContent, SegmentNumbers};
use disk_model::LOG_STRIPS;
use frame_journal::Frame;
use rdb_base::NoMemory;
use std::alloc::Global;

/// The frames of a strip after its first one.
fn after_header(frames: &StripFrames) -> &[Frame]
    ensures { result.now ≡ drop 1 frames.now }
{
    match split(&frames.frames) {
        Some((_header, rest)) => rest,
        None => &[],
    }
}

/// A live segment with its entries, which is to begin with the number `end`.
#[tactic(auto, unfolding(crate::specs::Segments::content_of))]
fn content_of(
    alloc: Global,
    strips: &[StripFrames],
    end: u64,
    header: SegmentHeader,
) -> Result<SegmentContent, LogError>
    requires eight { length strips.now ≡ LOG_STRIPS }
    requires most { end ≤ NUMBER_MAX }
    ensures exact { GivesLog (λ x. x) result (content_of strips.now end header) }
    ensures within { IfOk result (λ x. end + length x.entries ≤ NUMBER_MAX) }
{
    let SegmentHeader { segment, first } = header;
    if first != end {
        return Err(LogError::LogGap {
            want: end,
            found: first,
        });
    }
    let strip = (segment % LOG_STRIPS as u64) as u8;
    let frames = after_header(&strips[strip as usize]);
    let entries = entries_after(alloc, strip, end, frames)?;
    Ok(SegmentContent {
        segment,
        first,
        entries,
    })
}

/// The live segments with their entries, and the number after the last entry.
fn contents_of(
    alloc: Global,
    strips: &[StripFrames],
    start: u64,
    live: &[SegmentHeader],
) -> Result<(Vec<SegmentContent>, u64), LogError>
    requires eight { length strips.now ≡ LOG_STRIPS }
    requires most { start ≤ NUMBER_MAX }
    ensures exact { GivesLog (λ x. x.0.items) result (contents_from strips.now start live.now) }
    ensures end { IfOk result (λ x. x.1 ≡ end_from start x.0.items) }
    ensures most { IfOk result (λ x. x.1 ≤ NUMBER_MAX) }
{
    let mut segments = Vec::new(alloc);
    let mut end = start;
    'live: for header in live {
        match content_of(alloc, strips, end, *header) {
            Ok(segment) => {
                end += segment.entries.len() as u64;
                let Ok(()) = segments.push(segment) else {
                    return Err(LogError::Memory);
                };
            }
            Err(error) => return Err(error),
        }
    }
    Ok((segments, end))
}

/// The log that the strips have, whose live segments begin with segment `first`.
#[tactic(auto, unfolding(crate::specs::Segments::log_of, crate::specs::Segments::log_of_live))]
pub(crate) fn log_of(
    alloc: Global,
    strips: &[StripFrames],
    first: u64,
) -> Result<LogContent, LogError>
    requires eight { length strips.now ≡ LOG_STRIPS }
    ensures exact { GivesLog (λ x. x) result (log_of first strips.now) }
    ensures content { IfOk result IsContent }
    ensures numbered { IfOk result (λ x. AreNumberedFrom first x.segments) }
{
    let headers = headers_of(alloc, strips)?;
    let Ok((live, next)) = live_segments(alloc, &headers, first) else {
        return Err(LogError::Memory);
    };
    let start = start_of(&live);
    let (segments, end) = contents_of(alloc, strips, start, &live)?;
    if let Some(found) = stray(&headers, next) {
        return Err(LogError::LogGap { want: end, found });
    }
    Ok(LogContent {
        start,
        end,
        segments,
    })
}

/// What is kept of the segments without their entries.
pub(crate) fn numbers_of(
    alloc: Global,
    segments: &[SegmentContent],
) -> Result<Vec<SegmentNumbers>, NoMemory>
    ensures { IfOk result (λ x. x.items ≡ map numbers_of segments.now) }
{
    let mut numbers = Vec::new(alloc);
    'segments: for content in segments {
        numbers.push(SegmentNumbers {
            segment: content.segment,
            first: content.first,
            has_entries: !content.entries.is_empty(),
        })?;
    }
    Ok(numbers)
}
