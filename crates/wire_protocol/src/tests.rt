//! The bytes of each message, a refusal for each test, and an input cut in pieces.
ghost use Rattle.std.specs.Prelude.{◌<◌};

use crate::{Decoder, Reply, Request, WireError, spell_reply, spell_request};
use link_model::SteadySource;
use rdb_base::{Key, Row, Value};
use std::alloc::Global;
use std::process::Abort;
use std::test::Fail;

/// PUT a=1.
const PUT: &[u8] = b"\x00\x00\x00\x09\x01\x00\x01a\x00\x00\x00\x011";

/// DELETE a.
const DELETE: &[u8] = b"\x00\x00\x00\x04\x02\x00\x01a";

/// GET a.
const GET: &[u8] = b"\x00\x00\x00\x04\x03\x00\x01a";

const SYNC: &[u8] = b"\x00\x00\x00\x01\x04";

const QUIT: &[u8] = b"\x00\x00\x00\x01\x09";

fn put_of(alloc: Global, key: &[u8], value: &[u8]) -> Result<Request, Fail> {
    let key = Key::try_new(alloc, key)?;
    let value = Value::try_new(alloc, value)?;
    Ok(Request::Put {
        row: Row { key, value },
    })
}

/// Pieces, one after the other.
fn concat(alloc: Global, pieces: &[&[u8]]) -> Result<Vec<u8>, Fail> {
    let mut all = Vec::new(alloc);
    for piece in pieces {
        all.extend_from_slice(piece)?;
    }
    Ok(all)
}

/// Feeds a decoder at most so many of these bytes, and gives those that it did not take.
fn feed<'a>(
    rt: &(impl Abort + AllocGlobal),
    decoder: &mut Decoder,
    bytes: &'a [u8],
    most: usize,
) -> &'a [u8] {
    let (piece, _) = bytes.split_at(most.min(bytes.len()));
    assert!(rt; decoder.taken() < 1 << 20);
    assert!(rt; piece.len() < 1 << 20);
    let taken = decoder.feed(piece);
    let (_, rest) = bytes.split_at(taken);
    rest
}

/// What a decoder reads of an input that comes in pieces of this size: requests, and the refusal after them.
fn read(
    rt: &(impl Abort + AllocGlobal),
    input: &[u8],
    size: usize,
) -> Result<(Vec<Request>, Option<WireError>), Fail> {
    let alloc = rt.alloc();
    let mut decoder = Decoder::make(alloc)?;
    let mut requests = Vec::new(alloc);
    let mut rest = input;
    for _ in 0..input.len() {
        rest = feed(rt, &mut decoder, rest, size);
        match decoder.request(alloc) {
            Ok(Some(request)) => requests.push(request)?,
            Ok(None) => {}
            Err(error) => return Ok((requests, Some(error))),
        }
    }
    assert!(rt; rest.is_empty());
    Ok((requests, None))
}

/// An input in pieces of this size reads as these requests, and nothing is refused.
fn reads_as(
    rt: &(impl Abort + AllocGlobal),
    input: &[u8],
    size: usize,
    want: &[Request],
) -> Result<(), Fail> {
    let (requests, refusal) = read(rt, input, size)?;
    assert!(rt; requests.as_slice() == want);
    assert_eq!(rt; refusal, None);
    Ok(())
}

/// An input is refused at this place with this code, however it is cut.
fn is_refused(
    rt: &(impl Abort + AllocGlobal),
    input: &[u8],
    at: u64,
    code: u8,
) -> Result<(), Fail> {
    for size in [1, 3, 2000] {
        let (_, refusal) = read(rt, input, size)?;
        assert_eq!(rt; refusal, Some(WireError::BadMessage { at, code }));
    }
    Ok(())
}

/// A request is spelled so.
fn asks(rt: &(impl Abort + AllocGlobal), request: &Request, want: &[u8]) -> Result<(), Fail> {
    let mut bytes = Vec::new(rt.alloc());
    spell_request(request, &mut bytes)?;
    assert!(rt; bytes.as_slice() == want);
    Ok(())
}

/// A reply is spelled so.
fn replies(rt: &(impl Abort + AllocGlobal), reply: Reply, want: &[u8]) -> Result<(), Fail> {
    let mut bytes = Vec::new(rt.alloc());
    spell_reply(&reply, &mut bytes)?;
    assert!(rt; bytes.as_slice() == want);
    Ok(())
}

/// So many bytes were taken so far, and so many are lacking.
fn has_taken(rt: &(impl Abort + AllocGlobal), decoder: &Decoder, taken: u64, lacking: usize) {
    assert_eq!(rt; (decoder.place(), decoder.taken()), (0, taken));
    assert_eq!(rt; decoder.want(), lacking);
}

/// The message at hand comes to this.
fn comes_to(
    rt: &(impl Abort + AllocGlobal),
    decoder: &mut Decoder,
    want: Result<Option<Request>, WireError>,
) {
    assert!(rt; decoder.request(rt.alloc()) == want);
}

/// A source fills what the message lacks with so many bytes, in a call for at most so many.
fn fills(
    rt: &(impl Abort + AllocGlobal),
    decoder: &mut Decoder,
    source: &mut SteadySource,
    most: usize,
    count: usize,
) {
    assert!(rt; 0 < decoder.want());
    assert!(rt; decoder.taken() < 1 << 20);
    assert!(rt; 0 < most);
    assert!(rt; most < 1 << 20);
    assert_eq!(rt; decoder.take_from(source, most), Ok(count));
}

#[test]
fn a_script_is_read_however_it_is_cut(rt: HostRuntime) -> Result<(), Fail> {
    let alloc = rt.alloc();
    let script = concat(alloc, &[PUT, DELETE, GET, SYNC, QUIT])?;
    let want = vec![in alloc;
        put_of(alloc, b"a", b"1")?,
        Request::Delete {
            key: Key::try_new(alloc, b"a")?
        },
        Request::Get {
            key: Key::try_new(alloc, b"a")?
        },
        Request::Sync,
        Request::Quit,
    ]?;
    for size in [1, 3, 39] {
        reads_as(&rt, &script, size, &want)?;
    }
    Ok(())
}

#[test]
fn each_request_has_its_bytes(rt: HostRuntime) -> Result<(), Fail> {
    let alloc = rt.alloc();
    asks(&rt, &put_of(alloc, b"a", b"1")?, PUT)?;
    let key = Key::try_new(alloc, b"a")?;
    asks(&rt, &Request::Delete { key }, DELETE)?;
    let key = Key::try_new(alloc, b"a")?;
    asks(&rt, &Request::Get { key }, GET)?;
    asks(&rt, &Request::Sync, SYNC)?;
    asks(&rt, &Request::Quit, QUIT)
}

#[test]
fn a_refusal_has_the_place_and_the_first_test_that_fails(rt: HostRuntime) -> Result<(), Fail> {
    is_refused(&rt, b"\x00\x01\x04\x07", 0, 1)?;
    is_refused(&rt, b"\x00\x00\x00\x00", 0, 1)?;
    is_refused(&rt, b"\x00\x00\x00\x01\x10", 0, 2)?;
    is_refused(&rt, b"\x00\x00\x00\x01\x05", 0, 2)?;
    is_refused(&rt, b"\x00\x00\x00\x02\x03\x00", 0, 3)?;
    is_refused(&rt, b"\x00\x00\x00\x03\x02\x00\x01", 0, 3)?;
    is_refused(&rt, b"\x00\x00\x00\x03\x02\x00\x00", 0, 4)?;
    is_refused(&rt, b"\x00\x00\x00\x05\x02\x00\x01a\x00", 0, 7)?;
    is_refused(&rt, b"\x00\x00\x00\x02\x04\x00", 0, 7)?;
    is_refused(&rt, b"\x00\x00\x00\x08\x01\x00\x00\x00\x00\x00\x011", 0, 4)?;
    is_refused(&rt, b"\x00\x00\x00\x08\x01\x00\x01a\x00\x01\x00\x00", 0, 5)?;
    is_refused(
        &rt,
        b"\x00\x00\x00\x04\x03\x00\x01a\x00\x00\x00\x02\x09\x00",
        8,
        7,
    )
}

#[test]
fn a_key_of_1025_bytes_is_refused(rt: HostRuntime) -> Result<(), Fail> {
    let mut input = Vec::from_slice(rt.alloc(), b"\x00\x00\x04\x09\x01\x04\x01")?;
    input.extend_from_slice(&[0x61; 1025])?;
    input.extend_from_slice(b"\x00\x00\x00\x011")?;
    is_refused(&rt, &input, 0, 4)
}

#[test]
fn a_decoder_wants_what_its_message_lacks(rt: HostRuntime) -> Result<(), Fail> {
    let mut decoder = Decoder::make(rt.alloc())?;
    has_taken(&rt, &decoder, 0, 4);
    let rest = feed(&rt, &mut decoder, b"\x00\x00\x00\x09\x01", 5);
    assert!(rt; rest.is_empty());
    has_taken(&rt, &decoder, 5, 8);
    comes_to(&rt, &mut decoder, Ok(None));
    has_taken(&rt, &decoder, 5, 8);
    Ok(())
}

#[test]
fn a_decoder_takes_nothing_after_a_refused_length(rt: HostRuntime) -> Result<(), Fail> {
    let mut decoder = Decoder::make(rt.alloc())?;
    let rest = feed(&rt, &mut decoder, b"\x00\x01\x04\x07\x01", 5);
    assert!(rt; rest == b"\x01".as_slice());
    has_taken(&rt, &decoder, 4, 0);
    let refusal = Err(WireError::BadMessage { at: 0, code: 1 });
    comes_to(&rt, &mut decoder, refusal);
    let refusal = Err(WireError::BadMessage { at: 0, code: 1 });
    comes_to(&rt, &mut decoder, refusal);
    Ok(())
}

#[test]
fn a_source_fills_what_a_message_lacks(rt: HostRuntime) -> Result<(), Fail> {
    let alloc = rt.alloc();
    let mut decoder = Decoder::make(alloc)?;
    let mut source = SteadySource::new(Vec::from_slice(alloc, b"\x00\x00\x00\x02\x09\x00\x00")?);
    fills(&rt, &mut decoder, &mut source, 3, 3);
    has_taken(&rt, &decoder, 3, 1);
    fills(&rt, &mut decoder, &mut source, 100, 1);
    has_taken(&rt, &decoder, 4, 2);
    fills(&rt, &mut decoder, &mut source, 100, 2);
    assert!(rt; source.remaining() == b"\x00".as_slice());
    let refusal = Err(WireError::BadMessage { at: 0, code: 7 });
    comes_to(&rt, &mut decoder, refusal);
    Ok(())
}

#[test]
fn the_largest_put_is_spelled_and_read(rt: HostRuntime) -> Result<(), Fail> {
    let alloc = rt.alloc();
    let key = Vec::from_elem(alloc, 0x6B, 1024)?;
    let value = Vec::from_elem(alloc, 0x76, 65_535)?;
    let put = put_of(alloc, &key, &value)?;
    let head = b"\x00\x01\x04\x06\x01\x04\x00";
    let want = concat(alloc, &[head, &key, b"\x00\x00\xFF\xFF", &value])?;
    asks(&rt, &put, &want)?;
    reads_as(&rt, &want, 66_570, &vec![in alloc; put]?)
}

#[test]
fn the_largest_reply_is_spelled(rt: HostRuntime) -> Result<(), Fail> {
    let alloc = rt.alloc();
    let bytes = Vec::from_elem(alloc, 0x76, 65_535)?;
    let head = b"\x00\x01\x00\x0C\x82\x00\x00\x00\x00\x00\x00\x00\x01\x00\x00\xFF\xFF";
    let want = concat(alloc, &[head, &bytes])?;
    let value = Value::try_new(alloc, &bytes)?;
    replies(&rt, Reply::Value { front: 1, value }, &want)
}

#[test]
fn each_reply_has_its_bytes(rt: HostRuntime) -> Result<(), Fail> {
    let value = Value::try_new(rt.alloc(), b"1")?;
    let done = b"\x00\x00\x00\x09\x81\x00\x00\x00\x00\x00\x00\x00\x00";
    replies(&rt, Reply::Done { number: 0 }, done)?;
    let found = b"\x00\x00\x00\x0E\x82\x00\x00\x00\x00\x00\x00\x00\x01\x00\x00\x00\x011";
    replies(&rt, Reply::Value { front: 1, value }, found)?;
    let absent = b"\x00\x00\x00\x09\x83\x00\x00\x00\x00\x00\x00\x00\x01";
    replies(&rt, Reply::Absent { front: 1 }, absent)?;
    let synced = b"\x00\x00\x00\x09\x84\x00\x00\x00\x00\x00\x00\x00\x01";
    replies(&rt, Reply::Synced { number: 1 }, synced)?;
    replies(&rt, Reply::Bye, b"\x00\x00\x00\x01\x89")
}

#[test]
fn each_refusal_has_its_bytes(rt: HostRuntime) -> Result<(), Fail> {
    let refused = b"\x00\x00\x00\x0A\xE1\x00\x00\x00\x00\x00\x00\x00\x1D\x06";
    replies(&rt, Reply::BadMessage { at: 29, code: 6 }, refused)?;
    let fault = b"\x00\x00\x00\x02\xE4\x03";
    replies(&rt, Reply::DeviceFault { device: 3 }, fault)?;
    replies(&rt, Reply::OutOfMemory, b"\x00\x00\x00\x01\xE5")?;
    let number = 1 << 62;
    let spent = b"\x00\x00\x00\x09\xE7\x40\x00\x00\x00\x00\x00\x00\x00";
    replies(&rt, Reply::HistorySpent { number }, spent)?;
    let spent = b"\x00\x00\x00\x09\xE8\x40\x00\x00\x00\x00\x00\x00\x00";
    replies(&rt, Reply::NumbersSpent { next: number }, spent)
}
