//! Reads the frames of a strip as a log.
ghost use Rattle.std.specs.Prelude.{◌≡◌, ◌+◌, ◌^◌, ◌≤◌, ◌∷◌, [], None, length, IfOk, IfSome};
ghost use Rattle.wal_log.specs.Answers.{GivesLog, FailsLog};
ghost use Rattle.wal_log.specs.Logs.{in_frame, header_in, entries_in, after_header, alone};
ghost use Rattle.entry_code.specs.Payloads.{entries_of};
ghost use Rattle.rdb_base.specs.declared.limits.TheConstants.{NUMBER_MAX};

use crate::LogError;
use disk_model::LOG_STRIPS;
use entry_code::{EntryError, decode_entries, decode_header};
use frame_journal::Frame;
use rdb_base::Entry;
use std::alloc::Global;

/// The header that a frame is.
#[tactic(auto, unfolding(crate::specs::Logs::header_in))]
pub(crate) fn header_of(strip: u8, frame: &Frame) -> Result<(u64, u64), LogError>
    ensures exact { GivesLog (λ x. record { segment = x.0; first = x.1 }) result (header_in strip frame.now) }
    ensures within { IfOk result (λ x. x.1 ≤ NUMBER_MAX) }
{
    match decode_header(&frame.payload) {
        Ok((segment, first)) => {
            if segment % LOG_STRIPS as u64 != strip as u64 {
                return Err(LogError::BadEntry {
                    strip,
                    frame: frame.at,
                    at: 1,
                });
            }
            Ok((segment, first))
        }
        Err(EntryError::BadEntry { at }) => Err(LogError::BadEntry {
            strip,
            frame: frame.at,
            at,
        }),
        Err(EntryError::Memory) => Err(LogError::Memory),
    }
}

/// The entries of a frame, and the number of the first.
fn entries_of_frame(alloc: Global, strip: u8, frame: &Frame) -> Result<(u64, Vec<Entry>), LogError>
    ensures exact { GivesLog (λ x. record { first = x.0; entries = x.1.items }) result (in_frame strip frame.now (entries_of frame.now.payload)) }
    ensures within { IfOk result (λ x. x.0 + length x.1.items ≤ NUMBER_MAX) }
{
    match decode_entries(alloc, &frame.payload) {
        Ok(found) => Ok(found),
        Err(EntryError::BadEntry { at }) => Err(LogError::BadEntry {
            strip,
            frame: frame.at,
            at,
        }),
        Err(EntryError::Memory) => Err(LogError::Memory),
    }
}

/// The first frame, and those after it.
pub(crate) fn split(frames: &[Frame]) -> Option<(&Frame, &[Frame])>
    ensures some { IfSome result (λ x. frames.now ≡ x.0.now ∷ x.1.now) }
    ensures none { result ≡ None → frames.now ≡ [] }
{
    match frames {
        [frame, rest @ ..] => Some((frame, rest)),
        [] => None,
    }
}

/// The entries of these frames, of which the first is to have this number.
pub(crate) fn entries_after(
    alloc: Global,
    strip: u8,
    from: u64,
    frames: &[Frame],
) -> Result<Vec<Entry>, LogError>
    requires { from ≤ NUMBER_MAX }
    ensures exact { GivesLog (λ x. x.items) result (entries_in strip from frames.now) }
    ensures within { IfOk result (λ x. from + length x.items ≤ NUMBER_MAX) }
{
    let mut entries = Vec::new(alloc);
    let mut end = from;
    let mut rest = frames;
    while let Some((frame, more)) = split(rest) {
        match entries_of_frame(alloc, strip, frame) {
            Ok((first, found)) => {
                if first != end {
                    return Err(LogError::LogGap {
                        want: end,
                        found: first,
                    });
                }
                let next = end + found.len() as u64;
                let mut found = found;
                let Ok(()) = entries.append(&mut found) else {
                    return Err(LogError::Memory);
                };
                end = next;
                rest = more;
            }
            Err(error) => return Err(error),
        }
    }
    Ok(entries)
}

/// The entries after a header, which has to be this segment's and to begin with this number.
#[tactic(auto, unfolding(crate::specs::Logs::after_header))]
fn entries_of_segment(
    alloc: Global,
    number: u64,
    first: u64,
    header: (u64, u64),
    frames: &[Frame],
) -> Result<Vec<Entry>, LogError>
    requires { header.1 ≤ NUMBER_MAX }
    ensures exact { GivesLog (λ x. x.items) result (after_header number first (record { segment = header.0; first = header.1 }) frames.now) }
    ensures within { IfOk result (λ x. first + length x.items ≤ NUMBER_MAX) }
{
    let (segment, from) = header;
    if segment != number {
        return Err(LogError::LogGap {
            want: first,
            found: from,
        });
    }
    let entries = entries_after(alloc, (number % LOG_STRIPS as u64) as u8, from, frames)?;
    if from != first {
        return Err(LogError::LogGap {
            want: first,
            found: from,
        });
    }
    Ok(entries)
}

/// The entries of a log on one strip that is to begin in this segment, with this number.
#[tactic(auto, unfolding(crate::specs::Logs::alone))]
pub(crate) fn entries_alone(
    alloc: Global,
    number: u64,
    first: u64,
    frames: &[Frame],
) -> Result<Vec<Entry>, LogError>
    requires { first ≤ NUMBER_MAX }
    ensures exact { GivesLog (λ x. x.items) result (alone number first frames.now) }
    ensures within { IfOk result (λ x. first + length x.items ≤ NUMBER_MAX) }
{
    let Some((frame, rest)) = split(frames) else {
        return Ok(Vec::new(alloc));
    };
    let header = header_of((number % LOG_STRIPS as u64) as u8, frame)?;
    entries_of_segment(alloc, number, first, header, rest)
}
