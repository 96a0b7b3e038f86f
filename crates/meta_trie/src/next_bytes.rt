//! A set of bytes, as 256 bits.
ghost use Rattle.std.specs.Prelude.{◌≡◌, ◌<◌, ◌≤◌, ◌||◌, ◌==◌, ℕ, true, false, MatchOption};
ghost use Rattle.std.specs.Int.{bit_at};
ghost use Rattle.meta_trie.specs.Nodes.{has_next};

/// The bytes that come next after a prefix. The bits of a word are mirrored: the greatest of its bytes is bit 0, so
/// that the greatest byte of a word is found by counting zeros.
#[derive(Clone, Copy)]
pub(crate) struct NextBytes {
    pub(crate) words: [u64; 4],
}

impl NextBytes {
    /// No byte.
    pub(crate) fn new() -> NextBytes
        ensures { (c : ℕ) → has_next result c ≡ false }
    {
        NextBytes { words: [0; 4] }
    }

    /// This byte too.
    pub(crate) fn insert(&mut self, byte: u8)
        ensures { (c : ℕ) → has_next self.new c ≡ (c == byte) || has_next self.old c }
    {
        let word = byte as usize / 64;
        let place = 63 - byte % 64;
        self.words[word] |= 1 << place;
    }

    /// The greatest of them below a byte.
    pub(crate) fn below(&self, byte: u8) -> Option<u8>
        ensures { MatchOption result
            ((c : ℕ) → c < byte → has_next self.now c ≡ false)
            (λ found. (found < byte) × (has_next self.now found ≡ true)
            × ((c : ℕ) → found < c → c < byte → has_next self.now c ≡ false)) }
    {
        if byte == 0 {
            None
        } else {
            self.at_most(byte - 1)
        }
    }

    /// The greatest of them up to a byte.
    fn at_most(&self, most: u8) -> Option<u8>
        ensures { MatchOption result
            ((c : ℕ) → c ≤ most → has_next self.now c ≡ false)
            (λ found. (found ≤ most) × (has_next self.now found ≡ true)
            × ((c : ℕ) → found < c → c ≤ most → has_next self.now c ≡ false)) }
    {
        let mut word = most / 64;
        let mut from = 63 - most % 64;
        'words: loop {
            match first_from(self.words[word as usize], from) {
                Some(place) => return Some(word * 64 + (63 - place)),
                None => {}
            }
            if word == 0 {
                return None;
            }
            word -= 1;
            from = 0;
        }
    }
}

/// The least place, from one on, at which a word has a bit.
fn first_from(word: u64, from: u8) -> Option<u8>
    requires { from < 64 }
    ensures { MatchOption result
        ((i : ℕ) → from ≤ i → i < 64 → bit_at word i ≡ 0)
        (λ place. (from ≤ place) × (place < 64) × (bit_at word place ≡ 1)
        × ((i : ℕ) → from ≤ i → i < place → bit_at word i ≡ 0)) }
{
    let left = word & u64::MAX << from;
    if left == 0 {
        None
    } else {
        Some(left.trailing_zeros() as u8)
    }
}
