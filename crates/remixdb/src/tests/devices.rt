//! A strip that fails at opening, and one that is no log. Of one that begins empty, calls 0 to 2 open it, 3 to 6 clear it,
//! and 7 to 10 write the header's frame.
use crate::tests::running::{Given, HEADER, HEADER_ALONE, PUT_LOGGED, Wanted, concat, run};
use crate::tests::samples::{DEVICE_0, PUT, QUIT};
use std::process::Abort;
use std::test::Fail;

#[test]
fn a_device_that_fails_at_opening_is_told(rt: HostRuntime) -> Result<(), Fail> {
    let input = concat(&rt, &[PUT, QUIT])?;
    // What is on the strip when a call fails: nothing, a closed gate, or the header's body after it.
    let body = concat(&rt, &[&[0], &HEADER[1..], &[0]])?;
    let cases: &[(u64, &[u8])] = &[
        (0, &[]),
        (1, &[]),
        (2, &[]),
        (3, &[]),
        (4, &[0]),
        (5, &[0]),
        (6, &[0]),
        (7, &[0]),
        (8, &body),
        (9, &body),
    ];
    for (call, strip) in cases {
        let given = Given {
            device_fails: &[*call],
            ..Given::input(&input)
        };
        let wanted = Wanted {
            status: 4,
            output: &[],
            left: &input,
            strip,
            notes: DEVICE_0,
        };
        run(&rt, &["script", "mem"], given, wanted)?;
    }
    Ok(())
}

/// These bytes, with others at these places.
fn changed(
    rt: &(impl Abort + AllocGlobal),
    bytes: &[u8],
    changes: &[(usize, u8)],
) -> Result<Vec<u8>, Fail> {
    let mut all = Vec::from_slice(rt.alloc(), bytes)?;
    for (at, byte) in changes {
        let Some(place) = all.get_mut(*at) else {
            return Err("no such place")?;
        };
        *place = *byte;
    }
    Ok(all)
}

/// A strip is refused with this line, and nothing is taken, put or written.
fn is_refused(rt: &(impl Abort + AllocGlobal), strip: &[u8], notes: &[u8]) -> Result<(), Fail> {
    let given = Given {
        strip,
        ..Given::input(PUT)
    };
    let wanted = Wanted {
        status: 3,
        output: &[],
        left: PUT,
        strip,
        notes,
    };
    run(rt, &["script", "mem"], given, wanted)
}

/// Strips that are no log: bytes, what is changed in them, and the line of the notes.
const NO_LOGS: &[(&[u8], &[(usize, u8)], &[u8])] = &[
    // One whole frame of a byte, and after it, at place 6, an open gate without a frame.
    (
        &[0xA5, 0, 0, 0, 1, 7, 0xA5, 0, 0],
        &[],
        b"remixdb: devices refused: TornHeader strip 0 at 6\n",
    ),
    // The same frame alone is no header.
    (
        &[0xA5, 0, 0, 0, 1, 7, 0],
        &[],
        b"remixdb: devices refused: BadEntry strip 0 frame 0 at 0\n",
    ),
    // The headers of segment 1, which stands on another strip, of segment 8, and of one that begins with number 5.
    (
        HEADER_ALONE,
        &[(13, 1), (21, 1)],
        b"remixdb: devices refused: BadEntry strip 0 frame 0 at 1\n",
    ),
    (
        HEADER_ALONE,
        &[(13, 8), (21, 8)],
        b"remixdb: devices refused: LogGap want 0 found 8\n",
    ),
    (
        HEADER_ALONE,
        &[(21, 5)],
        b"remixdb: devices refused: LogGap want 0 found 5\n",
    ),
    // An entry with a key of no byte.
    (
        PUT_LOGGED,
        &[(53, 0)],
        b"remixdb: devices refused: BadEntry strip 0 frame 22 at 25\n",
    ),
];

#[test]
fn what_is_no_log_is_refused_by_name(rt: HostRuntime) -> Result<(), Fail> {
    for (bytes, changes, notes) in NO_LOGS {
        let strip = changed(&rt, bytes, changes)?;
        is_refused(&rt, &strip, notes)?;
    }
    Ok(())
}
