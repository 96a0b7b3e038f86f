//! Whole sessions over a store of one row: their bytes, their ends, what their faults leave, and what another caller adds.

mod dripping;
mod holding;
mod one_row;
mod seen;

use crate::tests::dripping::Dripping;
use crate::tests::holding::Holding;
use crate::tests::one_row::{OneRow, OneRowPass};
use crate::tests::seen::Seen;
use crate::{SessionEnd, SessionOut, run_session};
use disk_model::FaultBook;
use link_model::{ByteSink, ByteSource, Sink, Source, SteadySink, SteadySource};
use rdb_base::{Key, Row, Value};
use std::alloc::Global;
use std::process::Abort;
use std::test::Fail;

/// PUT a=1.
const PUT: &[u8] = b"\x00\x00\x00\x09\x01\x00\x01a\x00\x00\x00\x011";

/// DELETE a.
const DELETE: &[u8] = b"\x00\x00\x00\x04\x02\x00\x01a";

/// GET a.
const GET: &[u8] = b"\x00\x00\x00\x04\x03\x00\x01a";

const SYNC: &[u8] = b"\x00\x00\x00\x01\x04";

const QUIT: &[u8] = b"\x00\x00\x00\x01\x09";

/// PUT a=1, GET a, QUIT.
const SCRIPT: &[u8] =
    b"\x00\x00\x00\x09\x01\x00\x01a\x00\x00\x00\x011\x00\x00\x00\x04\x03\x00\x01a\x00\x00\x00\x01\x09";

/// DONE 0, VALUE 1 at front 1, BYE.
const REPLIES: &[u8] =
    b"\x00\x00\x00\x09\x81\x00\x00\x00\x00\x00\x00\x00\x00\x00\x00\x00\x0E\x82\x00\x00\x00\x00\x00\x00\x00\x01\x00\x00\x00\x011\x00\x00\x00\x01\x89";

/// What a caller has that has seen this, where nothing fails and nobody else adds an entry.
fn alone(alloc: Global, seen: Seen) -> Result<OneRowPass, Fail> {
    Ok(OneRowPass {
        seen,
        other: None,
        book: FaultBook::new(alloc, 0)?,
        is_failing: false,
    })
}

/// A session over an empty map, whose first entry gets number 0.
fn serve<R: Source, W: Sink>(
    alloc: Global,
    source: &mut R,
    sink: &mut W,
) -> Result<SessionOut, Fail> {
    let mut pass = alone(alloc, Seen::new(0, 0))?;
    Ok(run_session(alloc, &OneRow, &mut pass, source, sink))
}

/// The session over these requests ends by their QUIT, puts this output, and tells so many failures of device 0.
fn answers(
    rt: &(impl Abort + AllocGlobal),
    pass: OneRowPass,
    requests: &[&[u8]],
    output: &[u8],
    failures: u64,
) -> Result<(), Fail> {
    let alloc = rt.alloc();
    let mut pass = pass;
    let mut input = Vec::new(alloc);
    for request in requests {
        input.extend_from_slice(request)?;
    }
    let mut source = SteadySource::new(input);
    let mut sink = SteadySink::new(alloc, 200)?;
    let out = run_session(alloc, &OneRow, &mut pass, &mut source, &mut sink);
    assert_eq!(rt; sink.as_bytes(), output);
    assert_eq!(rt;
        (out.end, out.replies),
        (SessionEnd::Quit, requests.len() as u64)
    );
    assert_eq!(rt; (out.faults.count(0), out.faults.count(1)), (failures, 0));
    Ok(())
}

/// The session over this input puts this output and ends so. It does the same where its bytes come one at a time, and
/// then its sink holds nothing back.
fn ends(
    rt: &(impl Abort + AllocGlobal),
    input: &[u8],
    output: &[u8],
    end: SessionEnd,
    replies: u64,
    left: &[u8],
) -> Result<(), Fail> {
    let alloc = rt.alloc();
    let mut source = SteadySource::new(Vec::from_slice(alloc, input)?);
    let mut sink = SteadySink::new(alloc, 100)?;
    let out = serve(alloc, &mut source, &mut sink)?;
    assert_eq!(rt; sink.as_bytes(), output);
    assert_eq!(rt; (out.end, out.replies), (end, replies));
    assert_eq!(rt; source.remaining(), left);

    let bytes = SteadySource::new(Vec::from_slice(alloc, input)?);
    let mut source = Dripping { bytes };
    let bytes = SteadySink::new(alloc, 100)?;
    let mut sink = Holding {
        bytes,
        is_passed_on: false,
    };
    let out = serve(alloc, &mut source, &mut sink)?;
    assert_eq!(rt; sink.bytes.as_bytes(), output);
    assert!(rt; sink.is_passed_on);
    assert_eq!(rt; (out.end, out.replies), (end, replies));
    assert_eq!(rt; source.bytes.remaining(), left);
    Ok(())
}

#[test]
fn a_session_ends_by_quit_or_with_its_input(rt: HostRuntime) -> Result<(), Fail> {
    let alloc = rt.alloc();
    ends(&rt, SCRIPT, REPLIES, SessionEnd::Quit, 3, b"")?;
    ends(&rt, b"", b"", SessionEnd::End, 0, b"")?;
    ends(
        &rt,
        b"\x00\x00\x00\x09\x01",
        b"",
        SessionEnd::Cut { at: 0 },
        0,
        b"",
    )?;
    let mut more = Vec::from_slice(alloc, SCRIPT)?;
    more.extend_from_slice(b"\x00\x00")?;
    ends(&rt, &more, REPLIES, SessionEnd::Quit, 3, b"\x00\x00")?;
    Ok(())
}

#[test]
fn a_refused_message_ends_a_session(rt: HostRuntime) -> Result<(), Fail> {
    let alloc = rt.alloc();
    let mut long_key = Vec::from_slice(alloc, b"\x00\x00\x04\x09\x01\x04\x01")?;
    long_key.extend_from_slice(&[0x61; 1025])?;
    long_key.extend_from_slice(b"\x00\x00\x00\x011")?;
    for (input, code, left) in [
        (
            b"\x00\x00\x00\x08\x01\x00\x00\x00\x00\x00\x011".as_slice(),
            4,
            b"".as_slice(),
        ),
        (long_key.as_slice(), 4, b""),
        (b"\x00\x01\x04\x07\x01", 1, b"\x01"),
        (b"\x00\x00\x00\x01\x10", 2, b""),
        (b"\x00\x00\x00\x02\x03\x00", 3, b""),
    ] {
        let output = [0, 0, 0, 10, 0xE1, 0, 0, 0, 0, 0, 0, 0, 0, code];
        ends(
            &rt,
            input,
            &output,
            SessionEnd::Bad { at: 0, code },
            1,
            left,
        )?;
    }
    Ok(())
}

#[test]
fn an_update_a_sync_and_a_delete_are_answered(rt: HostRuntime) -> Result<(), Fail> {
    let pass = alone(rt.alloc(), Seen::new(0, 0))?;
    let want = b"\x00\x00\x00\x09\x81\x00\x00\x00\x00\x00\x00\x00\x00\
\x00\x00\x00\x09\x84\x00\x00\x00\x00\x00\x00\x00\x01\
\x00\x00\x00\x09\x81\x00\x00\x00\x00\x00\x00\x00\x01\
\x00\x00\x00\x09\x83\x00\x00\x00\x00\x00\x00\x00\x02\
\x00\x00\x00\x01\x89";
    answers(&rt, pass, &[PUT, SYNC, DELETE, GET, QUIT], want, 0)
}

#[test]
fn a_failed_device_is_told_with_one_unit(rt: HostRuntime) -> Result<(), Fail> {
    let alloc = rt.alloc();
    let want = b"\x00\x00\x00\x02\xE4\x00\
\x00\x00\x00\x09\x83\x00\x00\x00\x00\x00\x00\x00\x00\
\x00\x00\x00\x01\x89";
    for request in [PUT, DELETE, SYNC] {
        let mut pass = alone(alloc, Seen::new(0, 0))?;
        pass.is_failing = true;
        answers(&rt, pass, &[request, GET, QUIT], want, 1)?;
    }
    Ok(())
}

#[test]
fn a_spent_history_refuses_updates(rt: HostRuntime) -> Result<(), Fail> {
    let pass = alone(rt.alloc(), Seen::new((1 << 62) - 1, 0))?;
    let want = b"\x00\x00\x00\x09\x81\x3F\xFF\xFF\xFF\xFF\xFF\xFF\xFF\
\x00\x00\x00\x09\xE7\x40\x00\x00\x00\x00\x00\x00\x00\
\x00\x00\x00\x09\xE7\x40\x00\x00\x00\x00\x00\x00\x00\
\x00\x00\x00\x0E\x82\x40\x00\x00\x00\x00\x00\x00\x00\x00\x00\x00\x011\
\x00\x00\x00\x09\x84\x40\x00\x00\x00\x00\x00\x00\x00\
\x00\x00\x00\x01\x89";
    answers(&rt, pass, &[PUT, PUT, DELETE, GET, SYNC, QUIT], want, 0)
}

#[test]
fn spent_numbers_of_compactions_refuse_updates(rt: HostRuntime) -> Result<(), Fail> {
    let pass = alone(rt.alloc(), Seen::new(0, (1 << 62) + 5))?;
    let want = b"\x00\x00\x00\x09\xE8\x40\x00\x00\x00\x00\x00\x00\x05\
\x00\x00\x00\x09\xE8\x40\x00\x00\x00\x00\x00\x00\x05\
\x00\x00\x00\x09\x83\x00\x00\x00\x00\x00\x00\x00\x00\
\x00\x00\x00\x01\x89";
    answers(&rt, pass, &[PUT, DELETE, GET, QUIT], want, 0)
}

#[test]
fn what_another_caller_adds_is_seen(rt: HostRuntime) -> Result<(), Fail> {
    let alloc = rt.alloc();
    let mut pass = alone(alloc, Seen::new(0, 0))?;
    pass.other = Some(Row {
        key: Key::try_new(alloc, b"a")?,
        value: Value::try_new(alloc, b"9")?,
    });
    let want = b"\x00\x00\x00\x0E\x82\x00\x00\x00\x00\x00\x00\x00\x01\x00\x00\x00\x019\
\x00\x00\x00\x09\x81\x00\x00\x00\x00\x00\x00\x00\x01\
\x00\x00\x00\x0E\x82\x00\x00\x00\x00\x00\x00\x00\x02\x00\x00\x00\x011\
\x00\x00\x00\x01\x89";
    answers(&rt, pass, &[GET, PUT, GET, QUIT], want, 0)
}

#[test]
fn a_failed_put_ends_a_session_after_a_front_of_the_replies(rt: HostRuntime) -> Result<(), Fail> {
    let alloc = rt.alloc();
    for (room, failing, len, replies, calls) in [
        (100, 1, 13, 2, 2),
        (10, 9, 10, 1, 1),
        (100, 3, 36, 3, 4),
    ] {
        let mut source = SteadySource::new(Vec::from_slice(alloc, SCRIPT)?);
        let mut sink = ByteSink::new(alloc, room, Vec::from_slice(alloc, &[failing])?)?;
        let out = serve(alloc, &mut source, &mut sink)?;
        assert_eq!(rt; Some(sink.as_bytes()), REPLIES.get(..len));
        assert_eq!(rt; (out.end, out.replies), (SessionEnd::SinkFault, replies));
        assert_eq!(rt; (sink.calls(), sink.faults()), (calls, 1));
    }
    Ok(())
}

#[test]
fn a_failed_take_ends_a_session(rt: HostRuntime) -> Result<(), Fail> {
    let alloc = rt.alloc();
    let bytes = Vec::from_slice(alloc, SCRIPT)?;
    let mut source = ByteSource::new(bytes, Vec::from_slice(alloc, &[2])?);
    let mut sink = SteadySink::new(alloc, 100)?;
    let out = serve(alloc, &mut source, &mut sink)?;
    assert_eq!(rt; Some(sink.as_bytes()), REPLIES.get(..13));
    assert_eq!(rt; (out.end, out.replies), (SessionEnd::SourceFault, 1));
    Ok(())
}
