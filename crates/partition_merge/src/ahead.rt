ghost use Rattle.std.specs.Prelude.{◌≡◌};
ghost use Rattle.remix_view.specs.Spots.{NextOf};
ghost use Rattle.partition_merge.specs.Merging.{kept_from};

use remix_view::{Spot, View, Walk};

/// The next spot of an index that stays, the walk that stands at it, and the walk after it.
#[derive(Clone, Copy)]
pub(crate) struct Ahead {
    pub(crate) spot: Option<Spot>,
    pub(crate) here: Walk,
    pub(crate) after: Walk,
}

/// Passes older versions and deletions. It compares no key: the index has marked them.
pub(crate) fn next_kept(view: &View, walk: Walk) -> Ahead
    ensures same { kept_from view.now result.here ≡ kept_from view.now walk }
    ensures next { NextOf (kept_from view.now walk) result.spot (kept_from view.now result.after) }
{
    let mut here = walk;
    let mut after = walk;
    'spots: while let Some(spot) = after.next(view) {
        if !spot.old && !spot.del {
            return Ahead {
                spot: Some(spot),
                here,
                after,
            };
        }
        here = after;
    }
    Ahead {
        spot: None,
        here,
        after: here,
    }
}
