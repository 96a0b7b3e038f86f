//! Keys of 16 bytes in the order of their numbers, spread over all of them, and which run has which key.
ghost use Rattle.std.specs.Prelude.{◌<◌};

/// The bytes of a key.
pub(crate) const KEY_LEN: usize = 16;

/// The key at a place, of so many rising ones: the bytes of its number, the first of the highest place, and again.
pub(crate) fn key_of(place: u64, keys: u64) -> [u8; KEY_LEN]
    requires { 0 < keys }
{
    key_from((u64::MAX / keys).wrapping_mul(place))
}

/// The key of a number.
pub(crate) fn key_from(number: u64) -> [u8; KEY_LEN] {
    let bytes = number.to_be_bytes();
    let mut key = [0; KEY_LEN];
    let (front, back) = key.split_at_mut(8);
    front.copy_from_slice(&bytes);
    back.copy_from_slice(&bytes);
    key
}

/// A number that looks random, of another.
pub(crate) fn mixed(number: u64) -> u64 {
    let once = (number ^ (number >> 30)).wrapping_mul(0xBF58_476D_1CE4_E5B9);
    let twice = (once ^ (once >> 27)).wrapping_mul(0x94D0_49BB_1331_11EB);
    twice ^ (twice >> 31)
}

/// Whether a run, of so many, has the key at a place. Each key is in one, a tenth of them in the next one too.
pub(crate) fn is_in(place: u64, run: u64, runs: u64) -> bool
    requires { 0 < runs }
{
    let drawn = mixed(place.wrapping_add(1));
    let first = drawn % runs;
    run == first || ((drawn >> 32) % 10 == 0 && run == (first + 1) % runs)
}
