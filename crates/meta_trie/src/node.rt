//! A node of the trie.
ghost use Rattle.std.specs.Prelude.{◌≡◌};
ghost use Rattle.meta_trie.specs.Growths.{Grows, Begun};

use crate::next_bytes::NextBytes;

/// What the trie knows of one prefix of its anchors. Anchors are named by their leaves in the order of adding.
#[derive(Clone, Copy)]
pub(crate) struct Node {
    /// Whether the prefix is itself an anchor.
    pub(crate) own: bool,
    /// The least anchor that begins with it.
    pub(crate) least: usize,
    /// The greatest anchor that begins with it.
    pub(crate) greatest: usize,
    /// The bytes that come next in anchors that begin with it.
    pub(crate) nexts: NextBytes,
}

impl Node {
    /// The node of a prefix of one anchor alone.
    pub(crate) fn begin(place: usize, next: Option<u8>) -> Node
        ensures { Begun place next result }
    {
        let mut nexts = NextBytes::new();
        match next {
            None => Node {
                own: true,
                least: place,
                greatest: place,
                nexts,
            },
            Some(byte) => {
                nexts.insert(byte);
                Node {
                    own: false,
                    least: place,
                    greatest: place,
                    nexts,
                }
            }
        }
    }

    /// The node when one more anchor begins with its prefix.
    pub(crate) fn grown(self, place: usize, next: Option<u8>, less: bool, more: bool) -> Node
        ensures { Grows self place next less more result }
    {
        let least = if less { place } else { self.least };
        let greatest = if more { place } else { self.greatest };
        let mut nexts = self.nexts;
        match next {
            None => Node {
                own: true,
                least,
                greatest,
                nexts,
            },
            Some(byte) => {
                nexts.insert(byte);
                Node {
                    own: self.own,
                    least,
                    greatest,
                    nexts,
                }
            }
        }
    }
}
