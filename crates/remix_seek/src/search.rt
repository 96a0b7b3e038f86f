//! The two searches by halves of a seek: over the anchors, and over the places of one segment.
ghost use Rattle.std.specs.Prelude.{◌≡◌, ◌≢◌, ◌+◌, ◌-◌, ◌<◌, ◌≤◌, ◌^◌, true, ℕ, length, map};
ghost use Rattle.rdb_base.specs.Halvings.{IsTurn, IsFalling, IsLogarithmic};
ghost use Rattle.remix_seek.specs.Searches.{AnchorAt, anchor_below, place_below, IsReadable, holds_at};

use crate::anchors::Anchors;
use crate::runs::Runs;
use rdb_base::{Steps, compare_bytes};
use remix_view::selector::run_in;
use remix_view::{FILLER, SEGMENT_PLACES, View};
use std::sync::ledger::Ledger;

/// How many anchors are below the key. Each anchor that is read is one step.
pub(crate) fn anchors_below<L: Ledger>(
    anchors: &Anchors,
    count: u32,
    key: &[u8],
    steps: &mut Steps<L>,
) -> u32
    requires all { count ≡ length anchors.now }
    requires falls { IsFalling (anchor_below anchors.now key.now) (length anchors.now) }
    ensures place { IsTurn (anchor_below anchors.now key.now) (length anchors.now) result }
    ensures cost { IsLogarithmic (length anchors.now) steps.old steps.new }
    ensures some { 0 < length anchors.now → steps.old < steps.new }
{
    let mut low: u32 = 0;
    let mut high = count;
    'halves: while low < high {
        let middle = low + (high - low) / 2;
        steps.tick();
        if compare_bytes(anchors.at(middle).as_bytes(), key).is_lt() {
            low = middle + 1;
        } else {
            high = middle;
        }
    }
    low
}

/// The first place after the first of a segment that has no key below this one. Its first key is below.
pub(crate) fn first_in_segment<T: Runs, L: Ledger>(
    view: &View,
    segment: u32,
    runs: &[T],
    key: &[u8],
    steps: &mut Steps<L>,
) -> u8
    requires segment { segment < length view.now.segments }
    requires readable { IsReadable (map T.run runs.now) view.now segment }
    requires falls { IsFalling (place_below (map T.run runs.now) view.now segment key.now) 32 }
    requires first { place_below (map T.run runs.now) view.now segment key.now 0 ≡ true }
    ensures place { IsTurn (place_below (map T.run runs.now) view.now segment key.now) 32 result }
    ensures some { 0 < result }
    ensures cost { steps.new ≤ steps.old + 5 }
    ensures later { steps.old ≤ steps.new }
{
    let mut low: u8 = 1;
    let mut high: u8 = 32;
    'halves: while low < high {
        let place = low + (high - low) / 2;
        if is_below(view, segment, place, runs, key, steps) {
            low = place + 1;
        } else {
            high = place;
        }
    }
    low
}

/// Whether a place has a key below this one. No key is read where the place has none.
fn is_below<T: Runs, L: Ledger>(
    view: &View,
    segment: u32,
    place: u8,
    runs: &[T],
    key: &[u8],
    steps: &mut Steps<L>,
) -> bool
    requires segment { segment < length view.now.segments }
    requires place { place < 32 }
    requires readable { IsReadable (map T.run runs.now) view.now segment }
    ensures below { result ≡ place_below (map T.run runs.now) view.now segment key.now place }
    ensures cost { steps.new ≤ steps.old + 1 }
    ensures later { steps.old ≤ steps.new }
{
    let selector = view.selector(segment, place);
    if selector == FILLER {
        return false;
    }
    let run = run_in(selector);
    let offset = view.offset(segment, run);
    let rank = view.rank(segment, place, run);
    let read = runs[run as usize].lent_key(offset + rank as u32, steps);
    compare_bytes(read, key).is_lt()
}

/// Whether a place of a segment holds a version.
pub(crate) fn has_version(view: &View, segment: u32, place: u8) -> bool
    requires segment { segment < length view.now.segments }
    ensures { result ≡ holds_at view.now segment place }
{
    if (place as usize) < SEGMENT_PLACES {
        view.selector(segment, place) != FILLER
    } else {
        false
    }
}
