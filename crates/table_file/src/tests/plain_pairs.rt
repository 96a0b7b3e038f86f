//! Pairs of a table, read by the words of the format and by nothing of this crate.

/// The first so many bytes, or all where there are fewer, and the bytes after them.
fn cut(bytes: &[u8], len: usize) -> (&[u8], &[u8]) {
    bytes.split_at(len.min(bytes.len()))
}

/// A number of two bytes.
fn two(bytes: &[u8]) -> usize {
    match bytes {
        [high, low, ..] => *high as usize * 256 + *low as usize,
        _ => 0,
    }
}

/// A number of four bytes.
fn four(bytes: &[u8]) -> u32 {
    match bytes {
        [a, b, c, d, ..] => u32::from_be_bytes([*a, *b, *c, *d]),
        _ => 0,
    }
}

/// The key and the value of the pair that begins there, no value where it is a deletion.
pub fn plain_pair(bytes: &[u8], start: usize) -> (&[u8], Option<&[u8]>) {
    let (_, field) = cut(bytes, start);
    let (len, rest) = cut(field, 2);
    let (key, rest) = cut(rest, two(len));
    let (tag, rest) = cut(rest, 4);
    if four(tag) == u32::MAX {
        return (key, None);
    }
    let (value, _) = cut(rest, four(tag) as usize);
    (key, Some(value))
}
