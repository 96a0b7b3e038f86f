//! Whether a leaf covers a key.
ghost use Rattle.std.specs.Prelude.{◌≡◌, ◌<◌};
ghost use Rattle.worm_leaf.specs.Leaves.{covers};

use rdb_base::{Key, Steps};
use std::marker::Brand;
use std::sync::ledger::{Blank, Ledger};
use worm_leaf::Leaf;

/// Whether a leaf covers a key. It is one step, which nobody counts here.
pub(crate) fn is_covered(leaf: &Leaf, key: &Key) -> bool
    ensures { result ≡ covers leaf.now key.now }
{
    counted::<Brand>(leaf, key, Blank::new(1))
}

fn counted<L: Ledger>(leaf: &Leaf, key: &Key, blank: Blank) -> bool
    requires name { blank.name ≡ L.name }
    requires parts { blank.parts ≡ L.parts }
    requires some { 0 < blank.parts }
    ensures { result ≡ covers leaf.now key.now }
{
    let mut steps = Steps::<L>::begin(blank);
    leaf.covers(key, &mut steps)
}
