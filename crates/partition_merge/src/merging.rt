//! The merge of new pairs with old runs, pair by pair. The old side is walked in the order of its index, so a new key
//! is compared with the next old one alone, and no two keys of old runs are compared.
ghost use Rattle.std.specs.Prelude.{◌≡◌, ◌<◌, ◌∷◌, map, length, slice_get, Some};
ghost use Rattle.rdb_base.specs.Runs.{IsRun};
ghost use Rattle.rdb_base.specs.Levels.{merged};
ghost use Rattle.remix_seek.specs.Indexes.{Indexes};
ghost use Rattle.remix_seek.specs.Versions.{run_at};
ghost use Rattle.partition_merge.specs.Merging.{IsMergeAt, pairs_left, rows_left, IsNextPair, IsNextRow, IsWithin, is_row_in, TakesNew, IsPutThere, pair_from, pair_of_spot, head_order};

use crate::ahead::next_kept;
use crate::merge_place::MergePlace;
use crate::origin::Origin;
use crate::reads::run_with;
use rdb_base::{Change, Pair, Steps, compare_bytes};
use remix_seek::{Remix, Runs};
use remix_view::{Spot, View, Walk};
use std::cmp::Ordering;
use std::sync::ledger::Ledger;

/// The begin of a merge: all rows of the new pairs above the old runs are left.
pub(crate) fn first_place<T: Runs>(runs: &[T], remix: &Remix, newer: &[Pair]) -> MergePlace
    requires index { Indexes (map T.run runs.now) remix.now.view remix.now.anchors }
    requires rises { IsRun newer.now }
    ensures goes_on { IsMergeAt (map T.run runs.now) remix.now.view newer.now result }
    ensures rows { rows_left (map T.run runs.now) remix.now.view newer.now result ≡ merged (newer.now ∷ map T.run runs.now) }
{
    // Its contract tells that the view is formed.
    let _segments = remix.view.segments();
    MergePlace {
        walk: Walk::at(0, 0),
        at: 0,
    }
}

/// The origin of the next row that stays, where there is one. Deletions of the new side are passed.
pub(crate) fn next_row<T: Runs, L: Ledger>(
    runs: &[T],
    view: &View,
    newer: &[Pair],
    place: &mut MergePlace,
    steps: &mut Steps<L>,
) -> Option<Origin>
    requires { IsMergeAt (map T.run runs.now) view.now newer.now place.old }
    ensures next { IsNextRow (map T.run runs.now) newer.now
        (rows_left (map T.run runs.now) view.now newer.now place.old) result
        (rows_left (map T.run runs.now) view.now newer.now place.new) }
    ensures goes_on { IsMergeAt (map T.run runs.now) view.now newer.now place.new }
{
    'pairs: while let Some(origin) = next_pair(runs, view, newer, place, steps) {
        if is_row(newer, origin) {
            return Some(origin);
        }
    }
    None
}

/// Whether a pair of a merge is a row: a deletion stands on the new side alone.
fn is_row(newer: &[Pair], origin: Origin) -> bool
    requires { IsWithin newer.now origin }
    ensures { result ≡ is_row_in newer.now origin }
{
    match origin {
        Origin::Old { .. } => true,
        Origin::New { place } => match newer[place].change {
            Change::Put(_) => true,
            Change::Del => false,
        },
    }
}

/// The origin of the next pair of the new side over the old one. Where both have a key, the new pair stays.
fn next_pair<T: Runs, L: Ledger>(
    runs: &[T],
    view: &View,
    newer: &[Pair],
    place: &mut MergePlace,
    steps: &mut Steps<L>,
) -> Option<Origin>
    requires { IsMergeAt (map T.run runs.now) view.now newer.now place.old }
    ensures next { IsNextPair (map T.run runs.now) newer.now
        (pairs_left (map T.run runs.now) view.now newer.now place.old) result
        (pairs_left (map T.run runs.now) view.now newer.now place.new) }
    ensures goes_on { IsMergeAt (map T.run runs.now) view.now newer.now place.new }
{
    let found = next_kept(view, place.walk);
    match found.spot {
        None => next_new(newer, place),
        Some(spot) => {
            let at = place.at;
            match order_of_heads(runs, spot, newer, at, steps) {
                Ordering::Less => {
                    *place = MergePlace {
                        walk: found.here,
                        at: at + 1,
                    };
                    Some(Origin::New { place: at })
                }
                Ordering::Equal => {
                    *place = MergePlace {
                        walk: found.after,
                        at: at + 1,
                    };
                    Some(Origin::New { place: at })
                }
                Ordering::Greater => {
                    *place = MergePlace {
                        walk: found.after,
                        at,
                    };
                    Some(Origin::Old {
                        run: spot.run,
                        place: spot.place,
                    })
                }
            }
        }
    }
}

/// The next new pair, where nothing old is left.
fn next_new(newer: &[Pair], place: &mut MergePlace) -> Option<Origin>
    ensures { TakesNew newer.now place.old result place.new }
{
    let at = place.at;
    if at < newer.len() {
        place.at = at + 1;
        Some(Origin::New { place: at })
    } else {
        None
    }
}

/// The order of the first new pair that is left and of an old one. Where no new pair is left, the old one is first.
fn order_of_heads<T: Runs, L: Ledger>(
    runs: &[T],
    spot: Spot,
    newer: &[Pair],
    at: usize,
    steps: &mut Steps<L>,
) -> Ordering
    requires { IsPutThere (map T.run runs.now) spot }
    ensures { result ≡ head_order (slice_get newer.now at) (pair_of_spot (map T.run runs.now) spot) }
{
    if at < newer.len() {
        let key = run_with(runs, spot.run, spot.place).lent_key(spot.place, steps);
        compare_bytes(newer[at].key.as_bytes(), key)
    } else {
        Ordering::Greater
    }
}
