//! The place of a key among the pairs of a leaf.
ghost use Rattle.std.specs.Prelude.{◌≡◌, ◌<◌};
ghost use Rattle.rdb_base.specs.Runs.{IsRun};
ghost use Rattle.rdb_base.specs.Searches.{IsPlaceOf};
ghost use Rattle.worm_leaf.specs.Leaves.{is_key_at};

use rdb_base::{Key, Pair, Steps, compare_bytes, place_of};
use std::marker::Brand;
use std::sync::ledger::{Blank, Ledger};

/// The first place whose key is not below this one, or how many pairs there are.
pub(crate) fn place_in(pairs: &[Pair], key: &Key) -> usize
    requires { IsRun pairs.now }
    ensures { IsPlaceOf pairs.now key.now result }
{
    counted_place::<Brand>(pairs, key, Blank::new(1))
}

/// The same with the ledger of the steps, which nobody reads.
fn counted_place<L: Ledger>(pairs: &[Pair], key: &Key, blank: Blank) -> usize
    requires name { blank.name ≡ L.name }
    requires parts { blank.parts ≡ L.parts }
    requires some { 0 < blank.parts }
    requires rises { IsRun pairs.now }
    ensures { IsPlaceOf pairs.now key.now result }
{
    let mut steps = Steps::<L>::begin(blank);
    place_of(pairs, key.as_bytes(), &mut steps)
}

/// Whether the pair at a place has this key.
pub(crate) fn has_key_at(pairs: &[Pair], key: &Key, place: usize) -> bool
    ensures { result ≡ is_key_at pairs.now key.now place }
{
    match pairs.get(place) {
        None => false,
        Some(pair) => compare_bytes(pair.key.as_bytes(), key.as_bytes()).is_eq(),
    }
}
