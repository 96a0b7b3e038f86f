ghost use Rattle.std.specs.Prelude.{◌≡◌, ◌<◌, IfOk, length, map};
ghost use Rattle.remix_seek.specs.Indexes.{Indexes};
ghost use Rattle.remix_seek.specs.Places.{SeekCost, FoundFirst};

use crate::anchors::Anchors;
use crate::runs::Runs;
use crate::search::{anchors_below, first_in_segment, has_version};
use crate::share::Share;
use rdb_base::{NoMemory, Steps};
use remix_view::View;
use std::alloc::Global;
use std::sync::ledger::Ledger;

/// The index of several runs: the order of their versions, and the first key of each segment.
/// When it stands for runs is told by `specs/Indexes.antt`, `Indexes`.
#[derive(Drop)]
pub struct Remix {
    /// The order of all versions.
    pub view: View,
    /// The first key of each segment.
    pub anchors: Anchors,
}

impl Remix {
    /// The segment and place of the first key not below this one, or the end place: the number of segments, and 0.
    /// It compares in place, takes no memory and is always Ok. A key or an anchor that is read is one step.
    pub fn seek<T: Runs, L: Ledger>(
        &self,
        runs: &[T],
        key: &[u8],
        steps: &mut Steps<L>,
    ) -> Result<(u32, u8), NoMemory>
        requires { Indexes (map T.run runs.now) self.now.view self.now.anchors }
        ensures place { FoundFirst (map T.run runs.now) self.now.view key.now result }
        ensures cost { SeekCost self.now.view steps.old steps.new }
        ensures some { 0 < length self.now.view.segments → steps.old < steps.new }
    {
        let segments = self.view.segments();
        let below = anchors_below(&self.anchors, segments, key, steps);
        if below == 0 {
            return Ok((0, 0));
        }
        let segment = below - 1;
        let place = first_in_segment(&self.view, segment, runs, key, steps);
        if has_version(&self.view, segment, place) {
            Ok((segment, place))
        } else {
            Ok((below, 0))
        }
    }

    /// The same index, whose parts later copies share.
    pub fn seal(self, alloc: Global) -> Result<Remix, NoMemory>
        ensures { IfOk result (λ remix. remix ≡ self) }
    {
        Ok(Remix {
            view: self.view.seal(alloc)?,
            anchors: self.anchors.seal(alloc)?,
        })
    }
}

/// A sealed index is shared: no selector and no anchor is copied.
impl Share for Remix {
    fn share(&self, alloc: Global) -> Result<Remix, NoMemory> {
        Ok(Remix {
            view: self.view.share(alloc)?,
            anchors: self.anchors.share(alloc)?,
        })
    }
}
