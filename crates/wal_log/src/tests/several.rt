//! Logs of several segments, with their bytes made by hand: one that is read, each refusal of an opening, which of two
//! comes first, and each device call failing alone.
use crate::{Log, LogContent, LogError, RawLog};
use disk_model::{LOG_STRIPS, MemoryStrip};
use std::alloc::Global;
use std::process::Abort;
use std::test::Fail;

/// A frame of a strip, by what it has, with numbers below 256.
#[derive(Clone, Copy)]
enum Piece {
    /// A header: its segment, and its first number.
    Header(u8, u8),
    /// One entry with this number, which puts `a` to `1`.
    Entry(u8),
    /// An open gate, and no frame.
    Torn,
}

use Piece::{Entry, Header, Torn};

/// Segments 6, 7 and 8, of which the last has no entry, and an old one, segment 5.
const THREE: [&[Piece]; LOG_STRIPS] = [
    &[Header(8, 13)],
    &[],
    &[],
    &[],
    &[],
    &[Header(5, 9), Entry(9)],
    &[Header(6, 10), Entry(10), Entry(11)],
    &[Header(7, 12), Entry(12)],
];

/// Other frames on one strip.
type Change<'a> = (usize, &'a [Piece]);

fn add(bytes: &mut Vec<u8>, piece: Piece) -> Result<(), Fail> {
    match piece {
        Header(segment, first) => {
            bytes.extend_from_slice(b"\xA5\0\0\0\x11\0\0\0\0\0\0\0\0")?;
            bytes.push(segment)?;
            bytes.extend_from_slice(b"\0\0\0\0\0\0\0")?;
            bytes.push(first)?;
        }
        Entry(number) => {
            bytes.extend_from_slice(b"\xA5\0\0\0\x21\x01\0\0\0\0\0\0\0")?;
            bytes.push(number)?;
            bytes.extend_from_slice(b"\0\0\0\x01\0\0\0\0\0\0\0\0\0\0\0\0\0\x01a\0\0\0\x011")?;
        }
        Torn => bytes.push(0xA5)?,
    }
    Ok(())
}

/// The bytes of a strip with these frames, and a closed gate after them.
fn bytes_of(alloc: Global, pieces: &[Piece]) -> Result<Vec<u8>, Fail> {
    let mut bytes = Vec::new(alloc);
    for piece in pieces {
        add(&mut bytes, *piece)?;
    }
    bytes.push(0)?;
    Ok(bytes)
}

/// The frames that a strip has after these changes.
fn pieces_on<'a>(strip: usize, changes: &[Change<'a>]) -> &'a [Piece] {
    for (changed, pieces) in changes {
        if *changed == strip {
            return pieces;
        }
    }
    THREE[strip % LOG_STRIPS]
}

/// The strips of `THREE` with these changes, each of which fails these calls.
fn strips_of(
    alloc: Global,
    changes: &[Change<'_>],
    failing: Option<(usize, u64)>,
) -> Result<Vec<MemoryStrip>, Fail> {
    let mut strips = Vec::new(alloc);
    for strip in 0..LOG_STRIPS {
        let bytes = bytes_of(alloc, pieces_on(strip, changes))?;
        let mut calls = Vec::new(alloc);
        match failing {
            Some((failed, call)) => {
                if failed == strip {
                    calls.push(call)?;
                }
            }
            None => {}
        }
        strips.push(MemoryStrip::new(alloc, strip as u8, bytes, calls)?)?;
    }
    Ok(strips)
}

type Opened = Result<(RawLog<MemoryStrip>, LogContent), (Vec<MemoryStrip>, LogError)>;

fn open(alloc: Global, strips: Vec<MemoryStrip>, first: u64) -> Result<Opened, Fail> {
    if strips.len() != LOG_STRIPS {
        return Err("there are not eight strips")?;
    }
    Ok(Log::open(alloc, strips, first))
}

fn opened(
    alloc: Global,
    changes: &[Change<'_>],
    first: u64,
) -> Result<(RawLog<MemoryStrip>, LogContent), Fail> {
    let strips = strips_of(alloc, changes, None)?;
    match open(alloc, strips, first)? {
        Ok(found) => Ok(found),
        Err(_refused) => Err("the strips are refused")?,
    }
}

/// The log as text: its start and its end, and each live segment with its first number and how many entries it has.
fn told(alloc: Global, content: &LogContent) -> Result<String, Fail> {
    let mut text = format!(in alloc; "{} to {}:", content.start, content.end)?;
    for segment in &content.segments {
        let one = format!(in alloc;
            " {}/{}/{}",
            segment.segment,
            segment.first,
            segment.entries.len()
        )?;
        text.push_str(&one)?;
    }
    Ok(text)
}

/// The same of what a raw log keeps: each live segment with its first number and whether it has an entry.
fn kept(alloc: Global, raw: &RawLog<MemoryStrip>) -> Result<String, Fail> {
    let mut text = format!(in alloc; "{}: {} to {}:", raw.first(), raw.start(), raw.end())?;
    for segment in raw.segments() {
        let one = format!(in alloc;
            " {}/{}/{}",
            segment.segment, segment.first, segment.has_entries
        )?;
        text.push_str(&one)?;
    }
    Ok(text)
}

fn is_text(text: &str, wanted: &str) -> bool {
    text == wanted
}

/// Whether these are the strips of `THREE`, in order.
fn are_three(alloc: Global, strips: &[MemoryStrip]) -> Result<bool, Fail> {
    for strip in 0..LOG_STRIPS {
        let Some(found) = strips.get(strip) else {
            return Ok(false);
        };
        let bytes = bytes_of(alloc, pieces_on(strip, &[]))?;
        if found.as_bytes() != bytes.as_slice() {
            return Ok(false);
        }
    }
    Ok(strips.len() == LOG_STRIPS)
}

fn back(raw: RawLog<MemoryStrip>) -> Vec<MemoryStrip> {
    raw.into_strips()
}

#[test]
fn segments_6_7_and_8_are_one_log_over_strips_6_7_and_0(rt: HostRuntime) -> Result<(), Fail> {
    let (raw, content) = opened(rt.alloc(), &[], 6)?;
    let log = told(rt.alloc(), &content)?;
    assert!(rt; is_text(&log, "10 to 13: 6/10/2 7/12/1 8/13/0"));
    let numbers = kept(rt.alloc(), &raw)?;
    assert!(rt; is_text(&numbers, "6: 10 to 13: 6/10/true 7/12/true 8/13/false"));
    let strips = back(raw);
    assert!(rt; are_three(rt.alloc(), &strips)?);
    Ok(())
}

#[test]
fn a_log_begins_where_it_is_asked_to(rt: HostRuntime) -> Result<(), Fail> {
    let rows: [(&[Change<'_>], u64, &str); 4] = [
        (&[], 5, "9 to 13: 5/9/1 6/10/2 7/12/1 8/13/0"),
        (&[], 8, "13 to 13: 8/13/0"),
        (&[], 9, "0 to 0:"),
        (&[(6, &[]), (7, &[]), (0, &[])], 6, "0 to 0:"),
    ];
    for (changes, first, wanted) in rows {
        let (_raw, content) = opened(rt.alloc(), changes, first)?;
        let log = told(rt.alloc(), &content)?;
        assert!(rt; is_text(&log, wanted));
    }
    Ok(())
}

/// Why the strips of `THREE` with these changes are refused, as it is printed.
fn refusal(alloc: Global, changes: &[Change<'_>]) -> Result<String, Fail> {
    let strips = strips_of(alloc, changes, None)?;
    match open(alloc, strips, 6)? {
        Ok(_opened) => Err("it was opened")?,
        Err((_strips, error)) => Ok(format!(in alloc; "{error}")?),
    }
}

#[test]
fn what_is_no_log_is_refused_by_name(rt: HostRuntime) -> Result<(), Fail> {
    let rows: [(&[Change<'_>], &str); 8] = [
        (&[(3, &[Header(3, 3), Torn])], "TornHeader strip 3 at 22"),
        (&[(2, &[Entry(1)])], "BadEntry strip 2 frame 0 at 0"),
        (&[(2, &[Header(3, 3)])], "BadEntry strip 2 frame 0 at 1"),
        (&[(7, &[Header(7, 13)])], "LogGap want 12 found 13"),
        (
            &[(7, &[Header(7, 12), Header(7, 12)])],
            "BadEntry strip 7 frame 22 at 0",
        ),
        (
            &[(6, &[Header(6, 10), Entry(10), Entry(12)])],
            "LogGap want 11 found 12",
        ),
        (&[(2, &[Header(10, 20)])], "LogGap want 13 found 20"),
        (&[(7, &[])], "LogGap want 12 found 13"),
    ];
    for (changes, wanted) in rows {
        let refused = refusal(rt.alloc(), changes)?;
        assert!(rt; is_text(&refused, wanted));
    }
    Ok(())
}

#[test]
fn of_two_refusals_the_earlier_one_is_told(rt: HostRuntime) -> Result<(), Fail> {
    let gap: &[Piece] = &[Header(6, 10), Entry(11)];
    let rows: [(&[Change<'_>], &str); 6] = [
        (
            &[(2, &[Entry(1)]), (3, &[Header(3, 3), Torn])],
            "TornHeader strip 3 at 22",
        ),
        (
            &[(1, &[Header(1, 1), Torn]), (3, &[Header(3, 3), Torn])],
            "TornHeader strip 1 at 22",
        ),
        (
            &[(4, &[Header(3, 3)]), (6, gap)],
            "BadEntry strip 4 frame 0 at 1",
        ),
        (
            &[(6, &[Header(6, 10), Torn]), (4, &[Entry(1)])],
            "TornHeader strip 6 at 22",
        ),
        (
            &[(0, &[Header(8, 20)]), (6, gap)],
            "LogGap want 10 found 11",
        ),
        (
            &[(2, &[Header(10, 20)]), (7, &[Header(7, 12), Header(7, 12)])],
            "BadEntry strip 7 frame 22 at 0",
        ),
    ];
    for (changes, wanted) in rows {
        let refused = refusal(rt.alloc(), changes)?;
        assert!(rt; is_text(&refused, wanted));
    }
    Ok(())
}

/// Whether the failure of this call of this strip is told, and all strips come back as they were.
fn is_told(alloc: Global, strip: usize, call: u64) -> Result<bool, Fail> {
    let strips = strips_of(alloc, &[], Some((strip, call)))?;
    match open(alloc, strips, 6)? {
        Ok(_opened) => Ok(false),
        Err((strips, error)) => {
            let text = format!(in alloc; "{error}")?;
            let wanted = format!(in alloc; "device {strip} failed")?;
            Ok(is_text(&text, &wanted) && are_three(alloc, &strips)?)
        }
    }
}

#[test]
fn each_call_that_fails_is_told_by_its_device(rt: HostRuntime) -> Result<(), Fail> {
    for run in 0..24usize {
        assert!(rt; is_told(rt.alloc(), run / 3, (run % 3) as u64)?);
    }
    Ok(())
}
