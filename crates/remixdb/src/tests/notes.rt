//! The statuses and the lines of the notes.
use crate::outcome::Outcome;
use std::alloc::Global;
use std::test::Fail;

/// Whether this is its line, where an empty one is none.
fn tells(alloc: Global, outcome: Outcome, line: &str) -> Result<bool, Fail> {
    Ok(match outcome.fixed_line() {
        Some(fixed) => fixed == line,
        None => match outcome.numbered_line(alloc)? {
            Some(numbered) => numbered.as_str() == line,
            None => line.is_empty(),
        },
    })
}

#[test]
fn each_status_but_0_has_its_line(rt: HostRuntime) -> Result<(), Fail> {
    let cases: &[(Outcome, u8, &str)] = &[
        (
            Outcome::BadMessage,
            1,
            "remixdb: session ended by a bad message\n",
        ),
        (
            Outcome::UnknownWords,
            2,
            "remixdb: words are not in the stated form\n",
        ),
        (
            Outcome::TornHeader { strip: 0, at: 0 },
            3,
            "remixdb: devices refused: TornHeader strip 0 at 0\n",
        ),
        (
            Outcome::TornHeader {
                strip: 0,
                at: 33_554_439,
            },
            3,
            "remixdb: devices refused: TornHeader strip 0 at 33554439\n",
        ),
        (
            Outcome::BadEntry {
                strip: 0,
                frame: 22,
                at: 9,
            },
            3,
            "remixdb: devices refused: BadEntry strip 0 frame 22 at 9\n",
        ),
        (
            Outcome::LogGap { want: 0, found: 5 },
            3,
            "remixdb: devices refused: LogGap want 0 found 5\n",
        ),
        (
            Outcome::DeviceFailed { device: 0 },
            4,
            "remixdb: device 0 failed\n",
        ),
        (
            Outcome::DeviceFailed { device: 11 },
            4,
            "remixdb: device 11 failed\n",
        ),
        (Outcome::StreamFailed, 5, "remixdb: stream failed\n"),
        (Outcome::OutOfMemory, 6, "remixdb: out of memory\n"),
    ];
    for (outcome, status, line) in cases {
        assert_eq!(rt; outcome.status(), *status);
        assert!(rt; tells(rt.alloc(), *outcome, line)?);
    }
    assert_eq!(rt; Outcome::Done.status(), 0);
    assert!(rt; tells(rt.alloc(), Outcome::Done, "")?);
    Ok(())
}
