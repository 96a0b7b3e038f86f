//! The order of byte strings, eight bytes at a time.
ghost use Rattle.std.specs.Prelude.{◌≡◌, ◌≤◌, ◌<◌, ℕ, length, take, slice_index};
ghost use Rattle.std.specs.Int.{w64, from_be_bytes};
ghost use Rattle.rdb_base.specs.Order.{key_cmp};

use std::cmp::Ordering;

/// How many bytes are compared at once.
const WORD: usize = 8;

/// The order by unsigned bytes, a proper prefix first.
pub fn compare_bytes(mine: &[u8], theirs: &[u8]) -> Ordering
    ensures { result ≡ key_cmp mine.now theirs.now }
{
    if mine.len() < WORD || theirs.len() < WORD {
        return mine.cmp(theirs);
    }
    let my_word = word_of(mine);
    let their_word = word_of(theirs);
    if my_word == their_word {
        let (_, mine) = mine.split_at(WORD);
        let (_, theirs) = theirs.split_at(WORD);
        return compare_bytes(mine, theirs);
    }
    if my_word < their_word {
        Ordering::Less
    } else {
        Ordering::Greater
    }
}

/// The first word as a number, its first byte in the highest place.
fn word_of(bytes: &[u8]) -> u64
    requires { 8 ≤ length bytes.now }
    ensures value { result ≡ from_be_bytes w64 (take 8 bytes.now) }
    ensures small { (i : ℕ) → slice_index bytes.now i < 256 }
{
    u64::from_be_bytes([
        bytes[0], bytes[1], bytes[2], bytes[3], bytes[4], bytes[5], bytes[6], bytes[7],
    ])
}
