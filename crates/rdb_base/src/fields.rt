//! Fields, read from left to right: each reader gives a field and the bytes after it. None of them takes memory.
ghost use Rattle.std.specs.Prelude.{◌≡◌};
ghost use Rattle.std.specs.Int.{w8, w16, w32, w64};
ghost use Rattle.rdb_base.specs.PairFields.{GivesField, number_at, bytes_at};

use crate::bad_field::BadField;

/// A number of one byte, and the bytes after it.
pub fn u8_at(bytes: &[u8]) -> Result<(u8, &[u8]), BadField>
    ensures { GivesField (λ x. (x.0, x.1.now)) result (number_at w8 bytes.now) }
{
    if bytes.is_empty() {
        return Err(BadField { left: 0 });
    }
    let (front, rest) = bytes.split_at(1);
    Ok((u8::from_be_bytes([front[0]]), rest))
}

/// A number of two bytes, and the bytes after it.
pub fn u16_at(bytes: &[u8]) -> Result<(u16, &[u8]), BadField>
    ensures { GivesField (λ x. (x.0, x.1.now)) result (number_at w16 bytes.now) }
{
    if bytes.len() < 2 {
        return Err(BadField { left: bytes.len() });
    }
    let (front, rest) = bytes.split_at(2);
    Ok((u16::from_be_bytes([front[0], front[1]]), rest))
}

/// A number of four bytes, and the bytes after it.
pub fn u32_at(bytes: &[u8]) -> Result<(u32, &[u8]), BadField>
    ensures { GivesField (λ x. (x.0, x.1.now)) result (number_at w32 bytes.now) }
{
    if bytes.len() < 4 {
        return Err(BadField { left: bytes.len() });
    }
    let (front, rest) = bytes.split_at(4);
    Ok((
        u32::from_be_bytes([front[0], front[1], front[2], front[3]]),
        rest,
    ))
}

/// A number of eight bytes, and the bytes after it.
pub fn u64_at(bytes: &[u8]) -> Result<(u64, &[u8]), BadField>
    ensures { GivesField (λ x. (x.0, x.1.now)) result (number_at w64 bytes.now) }
{
    if bytes.len() < 8 {
        return Err(BadField { left: bytes.len() });
    }
    let (front, rest) = bytes.split_at(8);
    Ok((
        u64::from_be_bytes([
            front[0], front[1], front[2], front[3], front[4], front[5], front[6], front[7],
        ]),
        rest,
    ))
}

/// So many bytes, and the bytes after them.
pub fn slice_at(len: usize, bytes: &[u8]) -> Result<(&[u8], &[u8]), BadField>
    ensures { GivesField (λ x. (x.0.now, x.1.now)) result (bytes_at len bytes.now) }
{
    if bytes.len() < len {
        return Err(BadField { left: bytes.len() });
    }
    Ok(bytes.split_at(len))
}
