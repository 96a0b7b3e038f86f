//! Streams over a reader and a writer.
use crate::limits::INTERRUPTS_MAX;
use crate::tests::calls::{gives, puts};
use crate::tests::wire::End;
use crate::{Failed, ReaderSource, WriterSink, stream_pair};
use std::alloc::Global;
use std::process::Abort;
use std::test::Fail;

fn pair_over(alloc: Global, end: &End) -> Result<(ReaderSource<End, End>, WriterSink<End>), Fail> {
    Ok(stream_pair(alloc, end.other()?, end.other()?)?)
}

/// The wire has noted these calls and no others, and these bytes are all that was written.
fn has_seen(rt: &(impl Abort + AllocGlobal), end: &End, calls: &[u8], written: &[u8]) {
    assert!(rt; end.has_seen(calls, written));
}

/// So often each end of a pair has failed.
fn have_failed(
    rt: &(impl Abort + AllocGlobal),
    source: &ReaderSource<End, End>,
    sink: &WriterSink<End>,
    faults: (u64, u64),
) {
    assert_eq!(rt; (source.faults(), sink.faults()), faults);
}

#[test]
fn replies_are_passed_on_before_input_is_awaited(rt: HostRuntime) -> Result<(), Fail> {
    let end = End::new(rt.alloc(), (b"abc", b"d"), 1)?;
    let (mut source, mut sink) = pair_over(rt.alloc(), &end)?;
    gives(&rt, &mut source, Ok(b"ab"));
    puts(&rt, &mut sink, b"ab!", Ok(()));
    gives(&rt, &mut source, Ok(b"c"));
    puts(&rt, &mut sink, b"c!", Ok(()));
    has_seen(&rt, &end, b"fr", b"");
    gives(&rt, &mut source, Ok(b"d"));
    has_seen(&rt, &end, b"frwfr", b"ab!c!");
    gives(&rt, &mut source, Ok(b""));
    has_seen(&rt, &end, b"frwfrfr", b"ab!c!");
    Ok(())
}

#[test]
fn a_broken_wire_fails_each_call_once_and_loses_nothing(rt: HostRuntime) -> Result<(), Fail> {
    let end = End::new(rt.alloc(), (b"a", b""), 0)?;
    let (mut source, mut sink) = pair_over(rt.alloc(), &end)?;
    puts(&rt, &mut sink, b"z", Ok(()));
    end.set_broken(true);
    gives(&rt, &mut source, Err(Failed));
    puts(&rt, &mut sink, b"", Err(Failed));
    puts(&rt, &mut sink, b"y", Ok(()));
    have_failed(&rt, &source, &sink, (1, 1));
    has_seen(&rt, &end, b"ww", b"");
    end.set_broken(false);
    puts(&rt, &mut sink, b"", Ok(()));
    has_seen(&rt, &end, b"wwwf", b"zy");
    Ok(())
}

#[test]
fn a_flush_that_fails_is_told(rt: HostRuntime) -> Result<(), Fail> {
    let end = End::new(rt.alloc(), (b"a", b""), 0)?;
    let (source, mut sink) = pair_over(rt.alloc(), &end)?;
    end.set_broken(true);
    // Nothing is held, so nothing is written.
    puts(&rt, &mut sink, b"", Err(Failed));
    have_failed(&rt, &source, &sink, (0, 1));
    has_seen(&rt, &end, b"f", b"");
    Ok(())
}

/// 53 bytes that differ, a prime number: where they are repeated, no two writes of 4,096 are alike.
const PATTERN: &[u8] = b"abcdefghijklmnopqrstuvwxyz0123456789ABCDEFGHIJKLMNOPQ";

#[test]
fn a_piece_that_does_not_fit_passes_on_what_was_held(rt: HostRuntime) -> Result<(), Fail> {
    let alloc = rt.alloc();
    let end = End::new(alloc, (b"", b""), 0)?;
    let (_source, mut sink) = pair_over(alloc, &end)?;
    let piece = PATTERN.repeat(alloc, 755)?;
    puts(&rt, &mut sink, &piece, Ok(()));
    has_seen(&rt, &end, b"", b"");
    puts(&rt, &mut sink, &piece, Ok(()));
    // Ten writes of at most 4,096 bytes: 40,015 are nine of them and 3,151.
    has_seen(&rt, &end, b"wwwwwwwwwwf", &piece);
    Ok(())
}

/// A write for what was held, and so many for the piece, each of them flushed.
fn calls_of(alloc: Global, writes: u32) -> Result<Vec<u8>, Fail> {
    let mut calls = Vec::from_slice(alloc, b"wf")?;
    for _ in 0..writes {
        calls.push(b'w')?;
    }
    calls.push(b'f')?;
    Ok(calls)
}

#[test]
fn a_piece_of_several_buffers_is_written_whole(rt: HostRuntime) -> Result<(), Fail> {
    let alloc = rt.alloc();
    let end = End::new(alloc, (b"", b""), 2)?;
    let (_source, mut sink) = pair_over(alloc, &end)?;
    let piece = PATTERN.repeat(alloc, 3_774)?;
    puts(&rt, &mut sink, b"z", Ok(()));
    puts(&rt, &mut sink, &piece, Ok(()));
    let mut bytes = Vec::from_slice(alloc, b"z")?;
    bytes.extend_from_slice(&piece)?;
    // 200,022 bytes are 48 times 4,096 and 3,414.
    has_seen(&rt, &end, &calls_of(alloc, 49)?, &bytes);
    Ok(())
}

#[test]
fn interrupts_without_end_are_a_fault(rt: HostRuntime) -> Result<(), Fail> {
    let end = End::new(rt.alloc(), (b"a", b""), INTERRUPTS_MAX)?;
    let (mut source, mut sink) = pair_over(rt.alloc(), &end)?;
    puts(&rt, &mut sink, b"z", Ok(()));
    puts(&rt, &mut sink, b"", Err(Failed));
    has_seen(&rt, &end, b"", b"");
    // The run is over for one call, the write; the flush is interrupted again.
    puts(&rt, &mut sink, b"", Err(Failed));
    has_seen(&rt, &end, b"w", b"z");
    end.end_interrupts();
    gives(&rt, &mut source, Ok(b"a"));
    has_seen(&rt, &end, b"wfr", b"z");
    Ok(())
}

fn may_move<T: Send>(_value: &T) {}

#[test]
fn a_pair_may_move_to_a_thread(rt: HostRuntime) -> Result<(), Fail> {
    let (source, sink) = stream_pair(rt.alloc(), rt.stdin(), rt.stdout())?;
    may_move(&source);
    may_move(&sink);
    Ok(())
}
