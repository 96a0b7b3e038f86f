ghost use Rattle.std.specs.Prelude.{◌≡◌};
ghost use Rattle.overlay_view.specs.Placements.{row_order};

use crate::set_place::{SetPlace, order_of_places};
use std::cmp::Ordering;

/// Where a newer row stands among the versions of a set.
#[derive(Clone, Copy, Debug)]
pub struct Placement {
    /// The place of the first version in the row's partition that is not below the row.
    pub place: SetPlace,
    /// Whether that version has the row's key and is no deletion: then the row hides it.
    pub hides: bool,
}

/// The order of a newer row and the version at a place, by places alone. They tie where the row hides the version.
pub(crate) fn order_of_row(placement: Placement, place: SetPlace) -> Ordering
    ensures { result ≡ row_order placement place }
{
    match order_of_places(placement.place, place) {
        Ordering::Less => Ordering::Less,
        Ordering::Greater => Ordering::Greater,
        Ordering::Equal => {
            if placement.hides {
                Ordering::Equal
            } else {
                Ordering::Less
            }
        }
    }
}
