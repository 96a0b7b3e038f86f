ghost use Rattle.std.specs.Prelude.{◌≡◌, ◌≤◌, length};
ghost use Rattle.remix_view.specs.Views.{segment_with};

use crate::limits::{RUNS_MAX, SEGMENT_PLACES};

/// Thirty-two places of a view, and where each run stands at the first of them: 64 bytes.
#[derive(Clone, Copy, Debug, PartialEq, Eq)]
pub struct Segment {
    /// The place of each run at the first place of the segment. 0 where there is no such run.
    pub(crate) offsets: [u32; RUNS_MAX],
    /// The selectors of the places.
    pub(crate) selectors: [u8; SEGMENT_PLACES],
}

impl Segment {
    /// The segment of these offsets and selectors.
    pub(crate) fn new(offsets: &[u32], selectors: &[u8; SEGMENT_PLACES]) -> Segment
        requires { length offsets.now ≤ 8 }
        ensures { result ≡ segment_with offsets.now selectors.now }
    {
        let mut all = [0; RUNS_MAX];
        let (front, _) = all.split_at_mut(offsets.len());
        front.copy_from_slice(offsets);
        Segment {
            offsets: all,
            selectors: *selectors,
        }
    }
}
