//! What a run is given, what it must come to, and the run.
ghost use Rattle.std.specs.Prelude.{◌<◌, IfOk};
ghost use Rattle.host_model.specs.HostState.{IsAllHome};

use crate::arguments::ArgumentsError;
use crate::program::program;
use crate::tests::piece_host::PieceHost;
use crate::tests::samples::BAD;
use crate::top::remixdb;
use disk_model::MemoryStrip;
use host_model::{Host, MemoryHost, Word, memory_devices};
use link_model::{ByteSink, ByteSource};
use std::process::Abort;
use std::test::Fail;

/// What a run is given beside its words.
#[derive(Clone, Copy)]
pub struct Given<'a> {
    pub strip: &'a [u8],
    pub device_fails: &'a [u64],
    pub input: &'a [u8],
    pub source_fails: &'a [u64],
    pub room: u64,
    pub sink_fails: &'a [u64],
}

impl<'a> Given<'a> {
    /// This input, an empty strip, ample room, and no call that fails.
    pub fn input(input: &'a [u8]) -> Given<'a> {
        Given {
            strip: &[],
            device_fails: &[],
            input,
            source_fails: &[],
            room: 200_000,
            sink_fails: &[],
        }
    }
}

/// What a run must come to: its status, what was put, what was not taken, the strip, and the notes.
#[derive(Clone, Copy)]
pub struct Wanted<'a> {
    pub status: u8,
    pub output: &'a [u8],
    pub left: &'a [u8],
    pub strip: &'a [u8],
    pub notes: &'a [u8],
}

/// These words.
pub fn words_of(rt: &(impl Abort + AllocGlobal), words: &[&str]) -> Result<Vec<Word>, Fail> {
    let mut all = Vec::new(rt.alloc());
    for word in words {
        all.push(Word::try_new(rt.alloc(), word)?)?;
    }
    Ok(all)
}

fn host_of(rt: &(impl Abort + AllocGlobal), given: Given) -> Result<MemoryHost, Fail>
    ensures { IfOk result (λ host. IsAllHome (⟦<MemoryHost as Host>⟧.state host)) }
{
    let alloc = rt.alloc();
    let source = ByteSource::new(
        Vec::from_slice(alloc, given.input)?,
        Vec::from_slice(alloc, given.source_fails)?,
    );
    let sink = ByteSink::new(alloc, given.room, Vec::from_slice(alloc, given.sink_fails)?)?;
    let strip = MemoryStrip::new(
        alloc,
        0,
        Vec::from_slice(alloc, given.strip)?,
        Vec::from_slice(alloc, given.device_fails)?,
    )?;
    let devices = memory_devices(alloc, strip)?;
    Ok(MemoryHost::new(alloc, devices, source, sink))
}

/// Whether there are bytes, and they are the ones that are wanted.
pub fn are(bytes: Option<&[u8]>, wanted: &[u8]) -> bool {
    match bytes {
        Some(bytes) => bytes == wanted,
        None => false,
    }
}

/// The bytes of the first strip of the log, if the devices are at home.
fn strip_of(host: &MemoryHost) -> Option<&[u8]> {
    let devices = host.at_home()?;
    let strip = devices.log.first()?;
    Some(strip.as_bytes())
}

fn came_to(rt: &(impl Abort + AllocGlobal), host: &MemoryHost, status: u8, wanted: Wanted) {
    assert_eq!(rt; status, wanted.status);
    assert!(rt; are(host.output(), wanted.output));
    assert!(rt; are(host.remaining(), wanted.left));
    assert!(rt; are(strip_of(host), wanted.strip));
    assert!(rt; are(Some(host.notes()), wanted.notes));
}

/// The status of a run with these words. What the program promises of it does not come along, since each comparison after
/// it would be searched for there.
pub fn status_of<H: Host>(
    rt: &(impl Abort + AllocGlobal),
    words: &[&str],
    host: &mut H,
) -> Result<u8, Fail>
    requires { IsAllHome (H.state host.old) }
{
    let words = words_of(rt, words)?;
    Ok(remixdb(rt.alloc(), &words, host))
}

/// A run with these words comes to this.
pub fn run(
    rt: &(impl Abort + AllocGlobal),
    words: &[&str],
    given: Given,
    wanted: Wanted,
) -> Result<(), Fail> {
    let mut host = host_of(rt, given)?;
    let status = status_of(rt, words, &mut host)?;
    came_to(rt, &host, status, wanted);
    Ok(())
}

/// The status of the program on these arguments, its name first.
fn program_status(
    rt: &(impl Abort + AllocGlobal),
    arguments: Result<&[&str], ArgumentsError>,
    host: &mut MemoryHost,
) -> Result<u8, Fail>
    requires { IsAllHome (⟦<MemoryHost as Host>⟧.state host.old) }
{
    match arguments {
        Ok(arguments) => {
            let mut texts = Vec::new(rt.alloc());
            for argument in arguments {
                texts.push(String::from_str(rt.alloc(), argument)?)?;
            }
            Ok(program(rt.alloc(), Ok(&texts), host))
        }
        Err(error) => Ok(program(rt.alloc(), Err(error), host)),
    }
}

/// The program on these arguments, its name first, comes to this.
pub fn run_program(
    rt: &(impl Abort + AllocGlobal),
    arguments: Result<&[&str], ArgumentsError>,
    given: Given,
    wanted: Wanted,
) -> Result<(), Fail> {
    let mut host = host_of(rt, given)?;
    let status = program_status(rt, arguments, &mut host)?;
    came_to(rt, &host, status, wanted);
    Ok(())
}

fn run_in_pieces(
    rt: &(impl Abort + AllocGlobal),
    given: Given,
    wanted: Wanted,
    most: usize,
) -> Result<(), Fail>
    requires { 0 < most }
{
    let mut host = PieceHost {
        host: host_of(rt, given)?,
        most,
    };
    let status = status_of(rt, &["script", "mem"], &mut host)?;
    came_to(rt, &host.host, status, wanted);
    Ok(())
}

/// A session comes to this, whether its input comes whole or in pieces.
pub fn script(rt: &(impl Abort + AllocGlobal), given: Given, wanted: Wanted) -> Result<(), Fail> {
    run(rt, &["script", "mem"], given, wanted)?;
    run_in_pieces(rt, given, wanted, 1)?;
    run_in_pieces(rt, given, wanted, 3)?;
    run_in_pieces(rt, given, wanted, 7)
}

/// Pieces, one after the other.
pub fn concat(rt: &(impl Abort + AllocGlobal), pieces: &[&[u8]]) -> Result<Vec<u8>, Fail> {
    let mut all = Vec::new(rt.alloc());
    for piece in pieces {
        all.extend_from_slice(piece)?;
    }
    Ok(all)
}

/// The header of segment 0, whose first entry has the number 0, as a frame of a strip.
pub const HEADER: &[u8] = &[
    0xA5, 0, 0, 0, 0x11, 0, 0, 0, 0, 0, 0, 0, 0, 0, 0, 0, 0, 0, 0, 0, 0, 0,
];

/// A strip with this header, and no frame after it.
pub const HEADER_ALONE: &[u8] = &[
    0xA5, 0, 0, 0, 0x11, 0, 0, 0, 0, 0, 0, 0, 0, 0, 0, 0, 0, 0, 0, 0, 0, 0, 0,
];

/// A strip with this header, and a frame of PUT `a` = `1`.
pub const PUT_LOGGED: &[u8] = &[
    0xA5, 0, 0, 0, 0x11, 0, 0, 0, 0, 0, 0, 0, 0, 0, 0, 0, 0, 0, 0, 0, 0, 0, 0xA5, 0, 0, 0, 0x21, 1,
    0, 0, 0, 0, 0, 0, 0, 0, 0, 0, 0, 1, 0, 0, 0, 0, 0, 0, 0, 0, 0, 0, 0, 0, 0, 1, 0x61, 0, 0, 0, 1,
    0x31, 0,
];

/// A frame of the entries that these PUTs make, of which the first has this number and this ordinal.
pub fn frame_of(
    rt: &(impl Abort + AllocGlobal),
    number: u64,
    ordinal: u64,
    puts: &[&[u8]],
) -> Result<Vec<u8>, Fail> {
    let count = u32::try_from(puts.len())?;
    let mut payload = concat(rt, &[&[1], &number.to_be_bytes(), &count.to_be_bytes()])?;
    let mut next = ordinal;
    for put in puts {
        // The caller 0, the ordinal, and what a PUT has after its length and its code.
        let pair = put.get(5..).ok_or("a PUT")?;
        payload.extend_from_slice(&[0; 4])?;
        payload.extend_from_slice(&next.to_be_bytes())?;
        payload.extend_from_slice(pair)?;
        next = next.wrapping_add(1);
    }
    let len = u32::try_from(payload.len())?;
    concat(rt, &[&[0xA5], &len.to_be_bytes(), &payload])
}

/// A strip as a store leaves it that began empty: its header, and a frame with these updates, or none.
fn log_of(rt: &(impl Abort + AllocGlobal), puts: &[&[u8]]) -> Result<Vec<u8>, Fail> {
    if puts.is_empty() {
        return concat(rt, &[HEADER, &[0]]);
    }
    let frame = frame_of(rt, 0, 0, puts)?;
    concat(rt, &[HEADER, &frame, &[0]])
}

/// A session over streams and a strip that do not fail, its input whole and in pieces, ends with this status, does not
/// take what is left of its input, puts this output, and logs these updates.
pub fn ends_with(
    rt: &(impl Abort + AllocGlobal),
    status: u8,
    input: &[&[u8]],
    left: &[u8],
    output: &[&[u8]],
    updates: &[&[u8]],
) -> Result<(), Fail> {
    let input = concat(rt, input)?;
    let output = concat(rt, output)?;
    let strip = log_of(rt, updates)?;
    let wanted = Wanted {
        status,
        output: &output,
        left,
        strip: &strip,
        notes: if status == 0 { b"" } else { BAD },
    };
    script(rt, Given::input(&input), wanted)
}
