//! The older side of a listing. It is walked in the order of the indexes, and no key is read or compared.
ghost use Rattle.std.specs.Prelude.{◌≡◌};
ghost use Rattle.overlay_view.specs.Older.{NextShown, Stands, older_left, older_from};

use crate::set_place::SetPlace;
use partition_set::PartitionSet;
use remix_seek::Runs;
use remix_view::{Spot, View, Walk};

/// Where the older side of a listing stands: at a version that shows, or at the end of the set.
#[derive(Clone, Copy, Debug)]
pub(crate) struct Older {
    /// The place of the version.
    pub(crate) place: SetPlace,
    /// The version, the newest of its key and no deletion. None at the end.
    pub(crate) spot: Option<Spot>,
    /// The walk after it.
    pub(crate) after: Walk,
}

/// A version of a view that shows.
#[derive(Clone, Copy)]
pub(crate) struct Shown {
    pub(crate) segment: u32,
    pub(crate) place: u8,
    pub(crate) spot: Spot,
    /// The walk after it.
    pub(crate) after: Walk,
}

/// The next version of a set that shows, from a walk's place in a partition on. Past its end the next partition begins.
pub(crate) fn next_older<T: Runs + Drop>(parts: &PartitionSet<T>, part: usize, walk: Walk) -> Older
    ensures same { older_left T.run parts.now result ≡ older_from T.run parts.now part walk }
    ensures stands { Stands T.run parts.now result }
{
    let mut number = part;
    let mut walk = walk;
    'parts: while number < parts.count() {
        match next_shown(&parts.part(number).remix.view, walk) {
            Some(shown) => return older_at(number, shown),
            None => {
                number += 1;
                walk = Walk::at(0, 0);
            }
        }
    }
    Older {
        place: SetPlace {
            part: number,
            segment: 0,
            place: 0,
        },
        spot: None,
        after: Walk::at(0, 0),
    }
}

/// The older side at a version of a partition.
fn older_at(part: usize, shown: Shown) -> Older
    ensures { result ≡ record {
      place = record { part = part; segment = shown.segment; place = shown.place };
      spot = Some shown.spot;
      after = shown.after;
    } }
{
    Older {
        place: SetPlace {
            part,
            segment: shown.segment,
            place: shown.place,
        },
        spot: Some(shown.spot),
        after: shown.after,
    }
}

/// The next version of a view that shows. Fillers, older versions and deletions are passed.
fn next_shown(view: &View, walk: Walk) -> Option<Shown>
    ensures { NextShown view.now walk result }
{
    let mut after = walk;
    let mut here = after.ahead(view);
    'spots: while let Some(spot) = after.next(view) {
        if !spot.old && !spot.del {
            return Some(Shown {
                segment: here.0,
                place: here.1,
                spot,
                after,
            });
        }
        here = after.ahead(view);
    }
    None
}
