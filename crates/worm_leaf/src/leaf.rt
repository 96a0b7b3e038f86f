ghost use Rattle.std.specs.Prelude.{◌≡◌, ◌≤◌, ◌<◌, ◌+◌, ◌++◌, ◌⊎◌, ◌==◌, if◌then◌else◌, [], Some, None, IsTrue};
ghost use Rattle.std.specs.Prelude.{◌↔◌, true, is_some, is_none, length, take, drop, IfOk, vec_len, vec_capacity};
ghost use Rattle.std.specs.Option.{option_copied};
ghost use Rattle.std.specs.declared.cmp.Ordering.TheVariants.{Less};
ghost use Rattle.rdb_base.specs.Levels.{with_pair};
ghost use Rattle.rdb_base.specs.Order.{key_cmp};
ghost use Rattle.rdb_base.specs.Runs.{IsRun, change_at};
ghost use Rattle.rdb_base.specs.declared.pair.Pair.{Pair};
ghost use Rattle.worm_leaf.specs.Anchors.{PartsAt};
ghost use Rattle.worm_leaf.specs.Leaves.{unused, covers, AreCovered};
ghost use Rattle.worm_leaf.specs.declared.limits.TheConstants.{LEAF_PAIRS_MAX, LEAF_PAIRS_KEPT};

use crate::anchor::Anchor;
use crate::limits::{LEAF_PAIRS_KEPT, LEAF_PAIRS_MAX};
use crate::moving::move_from;
use crate::parting::parting_length;
use crate::searching::{has_key_at, place_in};
use rdb_base::{Change, Key, NoMemory, Pair, Steps, compare_bytes};
use std::alloc::Global;
use std::marker::Model;
use std::mem::{replace, swap};
use std::sync::ledger::Ledger;

/// The pairs of one range of keys. Contracts see its low bound, its high bound where there is one, and its pairs by
/// rising keys. All its room is taken when it is made.
#[derive(Drop)]
pub struct Leaf {
    low: Anchor,
    /// It is the high bound where `bounded` is true.
    high: Anchor,
    bounded: bool,
    pairs: Vec<Pair>,
}

impl Model for Leaf {
    ghost use Rattle.std.specs.Prelude.{◌≡◌, vec_capacity};
    ghost use Rattle.worm_leaf.specs.Leaves.{LeafState, IsLeaf, bound};
    ghost use Rattle.worm_leaf.specs.declared.limits.TheConstants.{LEAF_PAIRS_MAX};

    ghost Value = { LeafState };

    ghost view = { λ l. record { low = l.low; high = bound l.bounded l.high; pairs = l.pairs.items } };

    ghost invariant = { λ l. IsLeaf (record { low = l.low; high = bound l.bounded l.high; pairs = l.pairs.items })
        × (vec_capacity l.pairs ≡ LEAF_PAIRS_MAX) };
}

impl Leaf {
    /// A leaf over all keys without a pair, with room for `LEAF_PAIRS_MAX` pairs and two bounds.
    pub fn make(alloc: Global) -> Result<Leaf, NoMemory>
        ensures { IfOk result (λ leaf. leaf ≡ unused) }
    {
        let low = Anchor::make(alloc)?;
        let high = Anchor::make(alloc)?;
        let pairs = Vec::with_capacity(alloc, LEAF_PAIRS_MAX)?;
        Ok(Leaf {
            low,
            high,
            bounded: false,
            pairs,
        })
    }

    /// The change at a key, where the leaf has the key.
    pub fn find(&self, key: &Key) -> Option<&Change>
        ensures { option_copied result ≡ change_at self.now.pairs key.now }
    {
        let pairs = self.pairs.as_slice();
        let place = place_in(pairs, key);
        if has_key_at(pairs, key, place) {
            Some(&pairs[place].change)
        } else {
            None
        }
    }

    /// Whether a key is in the leaf's range. It is one step.
    pub fn covers<L: Ledger>(&self, key: &Key, steps: &mut Steps<L>) -> bool
        ensures answer { result ≡ covers self.now key.now }
        ensures cost { steps.new ≡ steps.old + 1 }
    {
        steps.tick();
        if compare_bytes(key.as_bytes(), self.low.as_bytes()).is_lt() {
            return false;
        }
        if self.bounded {
            compare_bytes(key.as_bytes(), self.high.as_bytes()).is_lt()
        } else {
            true
        }
    }

    /// Whether no pair more has room.
    pub fn is_full(&self) -> bool
        ensures answer { result ≡ (length self.now.pairs == LEAF_PAIRS_MAX) }
        ensures most { length self.now.pairs ≤ LEAF_PAIRS_MAX }
    {
        self.pairs.len() == LEAF_PAIRS_MAX
    }

    /// Whether this leaf's range is the first: its low bound is empty.
    pub fn is_first(&self) -> bool
        ensures { result ≡ (length self.now.low == 0) }
    {
        self.low.as_bytes().is_empty()
    }

    /// Whether this leaf's range is the last: it has no high bound.
    pub fn is_last(&self) -> bool
        ensures { result ≡ is_none self.now.high }
    {
        !self.bounded
    }

    /// Its pairs, by rising keys.
    pub fn rows(&self) -> &[Pair]
        ensures pairs { result.now ≡ self.now.pairs }
        ensures rises { IsRun self.now.pairs }
        ensures covered { AreCovered self.now self.now.pairs }
        ensures most { length self.now.pairs ≤ LEAF_PAIRS_MAX }
    {
        self.pairs.as_slice()
    }

    /// Sets a key's change, and answers the old one. There is room, or the key is there.
    pub fn put_reserved(&mut self, pair: Pair) -> Option<Change>
        requires covered { covers self.old pair.key ≡ true }
        requires room { (length self.old.pairs < LEAF_PAIRS_MAX)
            ⊎ (is_some (change_at self.old.pairs pair.key) ≡ true) }
        ensures set { self.new ≡ record self.old { pairs = with_pair self.old.pairs pair } }
        ensures old { result ≡ change_at self.old.pairs pair.key }
    {
        put_in(&mut self.pairs, pair)
    }

    /// The anchor that a split of this full leaf gives, for who makes room for it before the split.
    pub fn split_anchor(&self, anchor: &mut Anchor)
        requires full { length self.now.pairs ≡ LEAF_PAIRS_MAX }
        ensures anchor { PartsAt self.now.pairs LEAF_PAIRS_KEPT anchor.new }
        ensures inside { (key_cmp self.now.low anchor.new ≡ Less) × (covers self.now anchor.new ≡ true) }
    {
        part_at(self.pairs.as_slice(), LEAF_PAIRS_KEPT, anchor);
    }

    /// Splits a full leaf. `LEAF_PAIRS_KEPT` pairs stay, and the others go into an unused leaf. The anchor is the bound
    /// between both: the shortest prefix of the right one's first key that is above the left one's last key. It is
    /// above the low bound, and in the range.
    pub fn split_into(&mut self, right: &mut Leaf, anchor: &mut Anchor)
        requires full { length self.old.pairs ≡ LEAF_PAIRS_MAX }
        requires unused { right.old ≡ unused }
        ensures left { self.new ≡ record {
          low = self.old.low;
          high = Some anchor.new;
          pairs = take LEAF_PAIRS_KEPT self.old.pairs;
        } }
        ensures right { right.new ≡ record {
          low = anchor.new;
          high = self.old.high;
          pairs = drop LEAF_PAIRS_KEPT self.old.pairs;
        } }
        ensures anchor { PartsAt self.old.pairs LEAF_PAIRS_KEPT anchor.new }
        ensures inside { (key_cmp self.old.low anchor.new ≡ Less) × (covers self.old anchor.new ≡ true) }
    {
        part_at(self.pairs.as_slice(), LEAF_PAIRS_KEPT, anchor);
        move_from(&mut self.pairs, LEAF_PAIRS_KEPT, &mut right.pairs);
        swap(&mut self.high, &mut right.high);
        right.bounded = self.bounded;
        right.low.set(anchor.as_bytes());
        self.high.set(anchor.as_bytes());
        self.bounded = true;
    }

    /// Whether this leaf's high bound is the low bound of another one.
    pub fn meets(&self, right: &Leaf) -> bool
        ensures { IsTrue result ↔ (self.now.high ≡ Some right.now.low) }
    {
        self.bounded && self.high.as_bytes() == right.low.as_bytes()
    }

    /// Makes the leaf unused again. Its room stays.
    pub fn clear(&mut self)
        ensures { self.new ≡ unused }
    {
        self.low.set(&[]);
        self.bounded = false;
        self.pairs.clear();
    }

    /// Moves the pairs to the end of a list that has room for them. The range stays.
    pub fn move_into(&mut self, run: &mut Vec<Pair>)
        requires room { vec_len run.old + length self.old.pairs ≤ vec_capacity run.old }
        ensures moved { run.new.items ≡ run.old.items ++ self.old.pairs }
        ensures capacity { vec_capacity run.old ≤ vec_capacity run.new }
        ensures left { self.new ≡ record self.old { pairs = [] } }
    {
        run.append(&mut self.pairs).unwrap();
    }
}

/// Sets a key's change among rising pairs, and answers the old one. There is room, or the key is there.
fn put_in(pairs: &mut Vec<Pair>, pair: Pair) -> Option<Change>
    requires rises { IsRun pairs.old.items }
    requires room { (vec_len pairs.old < vec_capacity pairs.old)
        ⊎ (is_some (change_at pairs.old.items pair.key) ≡ true) }
    ensures set { pairs.new.items ≡ with_pair pairs.old.items pair }
    ensures old { result ≡ change_at pairs.old.items pair.key }
    ensures len { length pairs.new.items
        ≡ (if is_some result then length pairs.old.items else length pairs.old.items + 1) }
    ensures capacity { vec_capacity pairs.new ≡ vec_capacity pairs.old }
{
    let place = place_in(pairs.as_slice(), &pair.key);
    if has_key_at(pairs.as_slice(), &pair.key, place) {
        let Pair { key: _key, change } = pair;
        return Some(replace(&mut pairs[place].change, change));
    }
    pairs.insert(place, pair).unwrap();
    None
}

/// The anchor that parts the pairs from a place on from those before it.
fn part_at(pairs: &[Pair], place: usize, anchor: &mut Anchor)
    requires rises { IsRun pairs.now }
    requires inside { (0 < place) × (place < length pairs.now) }
    ensures { PartsAt pairs.now place anchor.new }
{
    let first = pairs[place].key.as_bytes();
    let len = parting_length(pairs[place - 1].key.as_bytes(), first);
    let (prefix, _) = first.split_at(len);
    anchor.set(prefix);
}
