//! What is lent comes back, with its faults.
ghost use Rattle.std.specs.Prelude.{◌≡◌, ◌≤◌, IfOk, IsSome};
ghost use Rattle.host_model.specs.HostState.{IsAllHome};

use crate::{Host, Lending, MemoryHost, Word, memory_devices};
use disk_model::MemoryStrip;
use link_model::{ByteSink, ByteSource, Failed, Sink, Source};
use std::alloc::Global;
use std::process::Abort;
use std::test::Fail;

/// A source of `ab` whose call 0 fails, and an empty sink.
fn streams(alloc: Global) -> Result<(ByteSource, ByteSink), Fail>
    ensures { IfOk result (λ pair. (pair.0.faults ≡ 0) × (pair.1.faults ≡ 0)) }
{
    let source = ByteSource::new(
        Vec::from_slice(alloc, b"ab")?,
        Vec::from_slice(alloc, &[0])?,
    );
    let sink = ByteSink::new(alloc, 10, Vec::new(alloc))?;
    Ok((source, sink))
}

/// A host of these streams, and of devices whose first strip has the bytes `s`.
fn host_of(alloc: Global) -> Result<MemoryHost, Fail>
    ensures { IfOk result (λ host. IsAllHome (⟦<MemoryHost as Host>⟧.state host)) }
{
    let strip = MemoryStrip::new(alloc, 0, Vec::from_slice(alloc, b"s")?, Vec::new(alloc))?;
    let devices = memory_devices(alloc, strip)?;
    let (source, sink) = streams(alloc)?;
    Ok(MemoryHost::new(alloc, devices, source, sink))
}

/// The first take fails, the second gives a byte, and a put takes two.
fn use_streams(rt: &(impl Abort + AllocGlobal), source: &mut ByteSource, sink: &mut ByteSink)
    ensures source { source.old.faults ≤ source.new.faults }
    ensures sink { sink.old.faults ≤ sink.new.faults }
{
    assert_eq!(rt; source.take(&mut [0; 1]), Err(Failed));
    assert_eq!(rt; source.take(&mut [0; 1]), Ok(1));
    assert_eq!(rt; sink.put(b"xy"), Ok(()));
}

/// The bytes of a strip of the log, while the devices are at home.
fn strip_bytes(host: &MemoryHost, strip: usize) -> Option<&[u8]> {
    match host.at_home() {
        Some(devices) => match devices.log.get(strip) {
            Some(strip) => Some(strip.as_bytes()),
            None => None,
        },
        None => None,
    }
}

/// The host has these bytes on its first strip, in its streams and in its notes.
fn holds(
    rt: &(impl Abort + AllocGlobal),
    host: &MemoryHost,
    strip: &[u8],
    streams: (&[u8], &[u8]),
    notes: &[u8],
) {
    let (remaining, output) = streams;
    assert_eq!(rt; strip_bytes(host, 0), Some(strip));
    assert_eq!(rt; host.remaining(), Some(remaining));
    assert_eq!(rt; host.output(), Some(output));
    assert_eq!(rt; host.notes(), notes);
}

#[test]
fn a_host_has_back_the_streams_that_it_lent(rt: HostRuntime) -> Result<(), Fail> {
    let mut host = host_of(rt.alloc())?;
    let (mut source, mut sink) = host.streams();
    assert!(rt; host.output().is_none() && host.remaining().is_none());
    use_streams(&rt, &mut source, &mut sink);
    host.give_streams(source, sink);
    holds(&rt, &host, b"s", (b"b", b"xy"), b"");
    Ok(())
}

#[test]
fn the_lines_of_the_notes_are_kept(rt: HostRuntime) -> Result<(), Fail> {
    let mut host = host_of(rt.alloc())?;
    host.note(b"one\n");
    host.note(b"two\n");
    holds(&rt, &host, b"s", (b"ab", b""), b"one\ntwo\n");
    Ok(())
}

/// The streams are lent, taken from once, and taken back; then so many faults are counted.
fn counts(
    rt: &(impl Abort + AllocGlobal),
    lending: &mut Lending<(ByteSource, ByteSink), 2>,
    faults: u64,
)
    requires { IsSome lending.old.thing }
    ensures { IsSome lending.new.thing }
{
    let (mut source, sink) = lending.lend();
    let _ = source.take(&mut [0; 1]);
    let now = [source.faults(), sink.faults()];
    lending.take_back((source, sink), now);
    assert_eq!(rt; lending.faults.get(), faults);
}

#[test]
fn faults_while_a_thing_is_out_are_counted(rt: HostRuntime) -> Result<(), Fail> {
    let mut lending = Lending::new(streams(rt.alloc())?, [0, 0]);
    counts(&rt, &mut lending, 1);
    // The second take does not fail, and the old fault is not counted again.
    counts(&rt, &mut lending, 1);
    Ok(())
}

#[test]
fn a_word_is_its_bytes(rt: HostRuntime) -> Result<(), Fail> {
    let word = Word::try_new(rt.alloc(), "mem")?;
    assert_eq!(rt; word.as_bytes(), b"mem".as_slice());
    assert!(rt; word.is(b"mem") && !word.is(b"me") && !word.is(b""));
    Ok(())
}
