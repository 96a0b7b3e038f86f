//! Selectors cut into segments. No key is read.
ghost use Rattle.std.specs.Prelude.{◌≡◌, ◌-◌, ◌<◌, ◌≤◌, ◌++◌, length, replicate};
ghost use Rattle.remix_view.specs.declared.selector.TheConstants.{FILLER};
ghost use Rattle.remix_build.specs.Packing.{GroupCut};

use remix_view::selector::is_old;
use remix_view::{FILLER, SEGMENT_PLACES};

/// How many of these selectors the next segment takes: as many as fit, and of no key a part of its versions.
pub(crate) fn cut(selectors: &[u8]) -> usize
    ensures { GroupCut selectors.now result }
{
    if selectors.len() <= SEGMENT_PLACES {
        return selectors.len();
    }
    let mut places = SEGMENT_PLACES;
    'places: while places > 0 && is_old(selectors[places]) {
        places -= 1;
    }
    places
}

/// The selectors of a segment that begins with these and ends with fillers.
pub(crate) fn closed(front: &[u8]) -> [u8; SEGMENT_PLACES]
    requires { length front.now ≤ 32 }
    ensures { result ≡ front.now ++ replicate (32 - length front.now) FILLER }
{
    let mut selectors = [FILLER; SEGMENT_PLACES];
    let (head, _) = selectors.split_at_mut(front.len());
    head.copy_from_slice(front);
    selectors
}
