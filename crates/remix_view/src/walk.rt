ghost use Rattle.std.specs.Prelude.{◌≡◌, ◌≢◌, ◌+◌, ◌<◌, ◌≤◌, ℕ, length};
ghost use Rattle.remix_view.specs.Views.{IsFormed};
ghost use Rattle.remix_view.specs.Spots.{spots_from, NextOf, IsAhead, passed_at, SpotAt, IsSpotPlace};

use crate::limits::SEGMENT_PLACES;
use crate::selector::{is_deletion, is_filler, is_old, run_in};
use crate::spot::Spot;
use crate::view::View;

/// A walk over the spots of a view. It holds a place of the view and nothing else.
#[derive(Clone, Copy, Debug)]
pub struct Walk {
    segment: u32,
    place: u8,
}

impl Walk {
    /// The walk from a place on. Past the end of a segment or of the view nothing is left of it.
    pub fn at(segment: u32, place: u8) -> Walk
        ensures { result ≡ record { segment = segment; place = place } }
    {
        Walk { segment, place }
    }

    /// Passes fillers, and tells the place of the next spot, or the end place: the number of segments, and 0.
    pub fn ahead(&mut self, view: &View) -> (u32, u8)
        ensures spots { spots_from view.now self.new.segment self.new.place
            ≡ spots_from view.now self.old.segment self.old.place }
        ensures place { result ≡ (self.new.segment, self.new.place) }
        ensures stands { IsAhead view.now self.new.segment self.new.place }
    {
        let segments = view.segments();
        let mut segment = self.segment;
        let mut place = self.place;
        'places: while is_passed(view, segment, place) {
            if place < 31 {
                place += 1;
            } else {
                segment += 1;
                place = 0;
            }
        }
        if segment < segments {
            self.segment = segment;
            self.place = place;
            (segment, place)
        } else {
            self.segment = segments;
            self.place = 0;
            (segments, 0)
        }
    }

    /// The next spot, old or not. None at the end, and at each later call.
    pub fn next(&mut self, view: &View) -> Option<Spot>
        ensures next { NextOf (spots_from view.now self.old.segment self.old.place) result
            (spots_from view.now self.new.segment self.new.place) }
        ensures formed { IsFormed view.now }
    {
        let (segment, place) = self.ahead(view);
        if segment < view.segments() {
            self.place = place + 1;
            Some(spot_there(view, segment, place))
        } else {
            None
        }
    }
}

/// Whether no spot is at this place of a segment.
fn is_passed(view: &View, segment: u32, place: u8) -> bool
    ensures { result ≡ passed_at view.now segment place }
{
    if segment < view.segments() {
        if (place as usize) < SEGMENT_PLACES {
            is_filler(view.selector(segment, place))
        } else {
            true
        }
    } else {
        false
    }
}

/// The spot of a place.
fn spot_there(view: &View, segment: u32, place: u8) -> Spot
    requires { IsSpotPlace view.now segment place }
    ensures { SpotAt view.now segment place result }
{
    let selector = view.selector(segment, place);
    let run = run_in(selector);
    let offset = view.offset(segment, run);
    let rank = view.rank(segment, place, run);
    Spot {
        run,
        place: offset + rank as u32,
        old: is_old(selector),
        del: is_deletion(selector),
    }
}
