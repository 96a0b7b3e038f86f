//! Which segments of a log are live, by the headers of its strips.
ghost use Rattle.std.specs.Prelude.{◌≡◌, ◌+◌, ◌<◌, ◌≤◌, ◌∷◌, [], Some, None, length, IfOk, IfSome};
ghost use Rattle.std.specs.List.{AllByRecursion};
ghost use Rattle.disk_model.specs.declared.limits.TheConstants.{LOG_STRIPS};
ghost use Rattle.wal_log.specs.Answers.{GivesLog};
ghost use Rattle.wal_log.specs.Segments.{IsHeaderWithin, header_on, headers_from, header_of_segment, live_from, start_of, stray_from};

use crate::LogError;
use crate::reading::{header_of, split};
use crate::segment_header::SegmentHeader;
use crate::strip_frames::StripFrames;
use disk_model::LOG_STRIPS;
use rdb_base::NoMemory;
use std::alloc::Global;

/// The header that a strip begins with.
#[tactic(auto, unfolding(crate::specs::Segments::header_on))]
fn first_header(strip: u8, frames: &StripFrames) -> Result<Option<SegmentHeader>, LogError>
    ensures { GivesLog (λ x. x) result (header_on strip frames.now) }
{
    let Some((frame, _rest)) = split(&frames.frames) else {
        return Ok(None);
    };
    let (segment, first) = header_of(strip, frame)?;
    Ok(Some(SegmentHeader { segment, first }))
}

/// The headers of the strips, one by one.
pub(crate) fn headers_of(
    alloc: Global,
    strips: &[StripFrames],
) -> Result<Vec<Option<SegmentHeader>>, LogError>
    requires eight { length strips.now ≡ LOG_STRIPS }
    ensures exact { GivesLog (λ x. x.items) result (headers_from 0 strips.now) }
    ensures eight { IfOk result (λ x. length x.items ≡ LOG_STRIPS) }
    ensures within { IfOk result (λ x. AllByRecursion IsHeaderWithin x.items) }
{
    let mut headers = Vec::new(alloc);
    let mut strip = 0;
    'strips: for frames in strips {
        match first_header(strip, frames) {
            Ok(header) => {
                let Ok(()) = headers.push(header) else {
                    return Err(LogError::Memory);
                };
                strip += 1;
            }
            Err(error) => return Err(error),
        }
    }
    Ok(headers)
}

/// The header of a segment, if the strip on which it stands names it.
fn named(headers: &[Option<SegmentHeader>], segment: u64) -> Option<SegmentHeader>
    requires eight { length headers.now ≡ LOG_STRIPS }
    requires within { AllByRecursion IsHeaderWithin headers.now }
    ensures exact { result ≡ header_of_segment headers.now segment }
    ensures within { IsHeaderWithin result }
{
    let Some(header) = headers[(segment % LOG_STRIPS as u64) as usize] else {
        return None;
    };
    if header.segment != segment {
        return None;
    }
    Some(header)
}

/// The headers of the live segments from `first` on, and the number after theirs.
pub(crate) fn live_segments(
    alloc: Global,
    headers: &[Option<SegmentHeader>],
    first: u64,
) -> Result<(Vec<SegmentHeader>, u64), NoMemory>
    requires eight { length headers.now ≡ LOG_STRIPS }
    requires within { AllByRecursion IsHeaderWithin headers.now }
    ensures exact { IfOk result (λ x. x.0.items ≡ live_from headers.now LOG_STRIPS first) }
    ensures next { IfOk result (λ x. x.1 ≡ first + length x.0.items) }
{
    let mut live = Vec::new(alloc);
    let mut segment = first;
    'segments: for count in 0..LOG_STRIPS {
        match named(headers, segment) {
            Some(header) => {
                live.push(header)?;
                segment += 1;
            }
            None => return Ok((live, segment)),
        }
    }
    Ok((live, segment))
}

/// Where the first live segment begins.
pub(crate) fn start_of(live: &[SegmentHeader]) -> u64
    ensures { result ≡ start_of live.now }
{
    match live {
        [header, ..] => header.first,
        [] => 0,
    }
}

/// The first number of the lowest strip's segment that is not below this one.
pub(crate) fn stray(headers: &[Option<SegmentHeader>], next: u64) -> Option<u64>
    ensures { result ≡ stray_from next headers.now }
{
    'headers: for header in headers {
        match *header {
            Some(header) => {
                if header.segment >= next {
                    return Some(header.first);
                }
            }
            None => {}
        }
    }
    None
}
