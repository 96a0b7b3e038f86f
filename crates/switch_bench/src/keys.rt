//! Keys of 16 bytes, spread evenly over all of them.
ghost use Rattle.std.specs.Prelude.{◌<◌};

/// The bytes of a key: 16 digits.
pub(crate) const KEY_LEN: usize = 16;

/// The digits of a key.
const DIGITS: [u8; 16] = *b"0123456789abcdef";

/// The key of a number: its 16 digits, the first of the highest place.
pub(crate) fn key_of(number: u64) -> [u8; KEY_LEN] {
    let mut key = [0; KEY_LEN];
    let mut left = number;
    for digit in key.iter_mut().rev() {
        *digit = DIGITS[(left % 16) as usize];
        left /= 16;
    }
    key
}

/// The number of the key at a place, of so many rising ones.
pub(crate) fn number_at(place: u32, size: u32) -> u64
    requires { 0 < size }
{
    let gap = u64::MAX / size as u64;
    gap.wrapping_mul(place as u64)
}

/// Places in an order that looks random: each after the other.
pub(crate) fn next_place(place: u32, size: u32) -> u32
    requires { 0 < size }
{
    let next = (place as u64 * 1_664_521 + 1_013_904_223) % size as u64;
    next as u32
}
