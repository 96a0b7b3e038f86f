ghost use Rattle.std.specs.Prelude.{◌≡◌, ◌≤◌, ◌<◌, ◌+◌, ◌^◌, ℕ, Some, length, IfSome, IfNone};
ghost use Rattle.left_right.specs.Sides.{view};
ghost use mathlib.Core.List.{IsPrefix};
ghost use Rattle.rdb_base.specs.Halvings.{IsLogarithmic};
ghost use Rattle.meta_trie.specs.Tries.{cover};

use crate::front::Front;
use crate::publishing::{Known, Looks, Rises};
use crate::trail::Trail;
use crate::trie_copy::TrieCopy;
use left_right::reader::Reader;
use rdb_base::{Key, Steps};
use std::marker::Model;
use std::sync::Wait;
use std::sync::ledger::Ledger;

/// A reader of the two copies that is not reading.
pub(crate) type RawReader = Reader<TrieCopy, Known, Rises>;

/// One caller's place at the published trie. Contracts see its switch and the anchors that it has seen: a front of
/// those that are published there.
///
/// # Threads
///
/// It belongs to one thread at a time, and may move to another. An entry takes no lock and stops no other reader. The
/// trie that it reads may be older than what a writer has published meanwhile; it is never older than what this reader
/// saw before.
#[derive(Drop)]
pub struct TrieReader {
    /// It is there between two calls. An entry takes it out, and puts it back.
    place: Option<RawReader>,
    front: Front,
}

impl Model for TrieReader {
    ghost use Rattle.std.specs.Prelude.{◌≡◌, Some, None};
    ghost use Rattle.std.specs.Option.{option_map_or};
    ghost use Rattle.table_switch.specs.Published.{FrontState};

    ghost Value = { FrontState };

    ghost view = { λ r. r.front };

    ghost invariant = { λ r. option_map_or (λ place. place.place.me.0.client) r.place None ≡ Some r.front };
}

impl TrieReader {
    /// A reader at a place that knows this front.
    pub(crate) fn at(place: RawReader, front: Front) -> TrieReader
        requires known { view place.place ≡ Some front }
        ensures { result ≡ front }
    {
        TrieReader {
            place: Some(place),
            front,
        }
    }

    /// Its place at the two copies.
    #[cfg(test)]
    pub(crate) fn into_place(self) -> RawReader {
        let TrieReader { place, front: _ } = self;
        place.unwrap()
    }

    /// The anchors that it has seen.
    pub fn front(&self) -> Front
        ensures { result ≡ self.now }
    {
        self.front.again()
    }

    /// The leaf of a key by the anchors that are published, and how many they are. The reader has seen these anchors
    /// then. It has left the trie when this returns. After the writer's end there is no trie, and it waits for ever.
    pub fn enter<R: Wait, L: Ledger>(&mut self, rt: &R, key: &Key, steps: &mut Steps<L>) -> Trail
        ensures switch { self.new.switch ≡ self.old.switch }
        ensures forward { IsPrefix self.old.anchors self.new.anchors }
        ensures start { result.start ≡ cover self.new.anchors key.now }
        ensures adds { result.adds ≡ length self.new.anchors }
        ensures counted { steps.old < steps.new }
        ensures cost { IsLogarithmic (length key.now) (steps.old + 2) steps.new }
    {
        'tries: for _ in rt.forever() {
            match self.try_enter(key.as_bytes(), steps) {
                Some(trail) => return trail,
                None => {}
            }
        }
        unreachable!()
    }

    /// Enters once. `None` where there is no trie.
    fn try_enter<L: Ledger>(&mut self, key: &[u8], steps: &mut Steps<L>) -> Option<Trail>
        ensures switch { self.new.switch ≡ self.old.switch }
        ensures forward { IsPrefix self.old.anchors self.new.anchors }
        ensures start { IfSome result (λ trail. trail.start ≡ cover self.new.anchors key.now) }
        ensures adds { IfSome result (λ trail. trail.adds ≡ length self.new.anchors) }
        ensures counted { IfSome result (λ _. steps.old < steps.new) }
        ensures cost { IfSome result (λ _. IsLogarithmic (length key.now) (steps.old + 2) steps.new) }
        ensures none { IfNone result (steps.new ≡ steps.old) }
    {
        let place = self.place.take().unwrap();
        let (place, front, trail) = enter_once(place, &self.front, key, steps);
        self.place = Some(place);
        self.front = front;
        trail
    }
}

/// Enters once, and leaves. The front is what the place knows; so is the one that comes back.
fn enter_once<L: Ledger>(
    place: RawReader,
    front: &Front,
    key: &[u8],
    steps: &mut Steps<L>,
) -> (RawReader, Front, Option<Trail>)
    requires known { view place.place ≡ Some front.now }
    ensures known { view result.0.place ≡ Some result.1 }
    ensures switch { result.1.switch ≡ front.now.switch }
    ensures forward { IsPrefix front.now.anchors result.1.anchors }
    ensures start { IfSome result.2 (λ trail. trail.start ≡ cover result.1.anchors key.now) }
    ensures adds { IfSome result.2 (λ trail. trail.adds ≡ length result.1.anchors) }
    ensures counted { IfSome result.2 (λ _. steps.old < steps.new) }
    ensures cost { IfSome result.2 (λ _. IsLogarithmic (length key.now) (steps.old + 2) steps.new) }
    ensures none { IfNone result.2 (steps.new ≡ steps.old) }
{
    match place.enter_as::<Looks>() {
        Ok(reading) => {
            let trail = reading.get().trail(key, steps);
            let front = reading.get().front();
            (reading.leave(), front, Some(trail))
        }
        Err(place) => (place, front.again(), None),
    }
}
