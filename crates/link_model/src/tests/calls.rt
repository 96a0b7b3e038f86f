//! One call of a stream, and its answer.
use crate::{Failed, Sink, Source};
use std::process::Abort;

/// A take of at most two bytes gives these, or fails.
pub fn gives(
    rt: &(impl Abort + AllocGlobal),
    source: &mut impl Source,
    want: Result<&[u8], Failed>,
) {
    let mut into = [0; 2];
    let given = match source.take(&mut into) {
        Ok(count) => Ok(into.as_slice().split_at(count).0),
        Err(Failed) => Err(Failed),
    };
    assert_eq!(rt; given, want);
}

/// A put of this piece succeeds, or fails.
pub fn puts(
    rt: &(impl Abort + AllocGlobal),
    sink: &mut impl Sink,
    piece: &[u8],
    want: Result<(), Failed>,
) {
    assert_eq!(rt; sink.put(piece), want);
}
