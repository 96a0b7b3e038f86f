//! Streams in memory.
use crate::tests::calls::{gives, puts};
use crate::{ByteSink, ByteSource, Failed, SteadySink, SteadySource};
use std::test::Fail;

#[test]
fn a_listed_take_fails_and_takes_nothing(rt: HostRuntime) -> Result<(), Fail> {
    let alloc = rt.alloc();
    let bytes = Vec::from_slice(alloc, b"abcde")?;
    let mut source = ByteSource::new(bytes, Vec::from_slice(alloc, &[1])?);
    gives(&rt, &mut source, Ok(b"ab"));
    gives(&rt, &mut source, Err(Failed));
    assert!(rt; source.remaining() == b"cde".as_slice());
    gives(&rt, &mut source, Ok(b"cd"));
    gives(&rt, &mut source, Ok(b"e"));
    gives(&rt, &mut source, Ok(b""));
    assert_eq!(rt; (source.calls(), source.faults()), (5, 1));
    Ok(())
}

#[test]
fn a_listed_put_takes_nothing_and_a_passed_room_is_filled(rt: HostRuntime) -> Result<(), Fail> {
    let alloc = rt.alloc();
    let mut sink = ByteSink::new(alloc, 4, Vec::from_slice(alloc, &[1])?)?;
    puts(&rt, &mut sink, b"ab", Ok(()));
    puts(&rt, &mut sink, b"c", Err(Failed));
    assert!(rt; sink.as_bytes() == b"ab".as_slice());
    puts(&rt, &mut sink, b"cde", Err(Failed));
    puts(&rt, &mut sink, b"", Ok(()));
    assert!(rt; sink.as_bytes() == b"abcd".as_slice());
    assert_eq!(rt; (sink.calls(), sink.faults()), (4, 2));
    Ok(())
}

#[test]
fn steady_streams_fail_only_past_the_room(rt: HostRuntime) -> Result<(), Fail> {
    let alloc = rt.alloc();
    let mut source = SteadySource::new(Vec::from_slice(alloc, b"abc")?);
    gives(&rt, &mut source, Ok(b"ab"));
    assert!(rt; source.remaining() == b"c".as_slice());
    let mut sink = SteadySink::new(alloc, 3)?;
    puts(&rt, &mut sink, b"ab", Ok(()));
    puts(&rt, &mut sink, b"ab", Err(Failed));
    assert!(rt; sink.as_bytes() == b"aba".as_slice() && sink.faults() == 1);
    Ok(())
}
