ghost use Rattle.std.specs.Prelude.{◌≡◌, ◌≤◌, ◌<◌, ◌+◌, ◌^◌, ◌++◌, ◌∷◌, [], ℕ, true, false};
ghost use Rattle.std.specs.Prelude.{length, OnOk, OnErr, IfSome};
ghost use Rattle.rdb_base.specs.Halvings.{IsLogarithmic};
ghost use Rattle.meta_trie.specs.Tries.{cover, IsNew, IsThere, RoomAnswer};
ghost use Rattle.table_switch.specs.Published.{all_appended, front_of};

use crate::appended::Appended;
use crate::ends::{Ends, RawWriter};
use crate::front::Front;
use crate::publishing::{Takes, Tells};
use crate::raw_publishing::{publish_all, send};
use crate::roll::Roll;
use crate::told::Told;
use crate::trie_reader::TrieReader;
use meta_trie::{MetaTrie, TrieError};
use rdb_base::{NoMemory, Steps};
use std::alloc::Global;
use std::marker::Model;
use std::sync::Wait;
use std::sync::ledger::Ledger;
use worm_leaf::Anchor;

/// The one writer of a published trie. Contracts see its switch, the anchors that are published, and those that it has
/// appended since.
///
/// # Threads
///
/// It belongs to one thread at a time, and may move to another. No call of it stops a reader from entering. After its
/// end there is nothing to enter.
pub struct TrieWriter<E: Ends> {
    pub(crate) writer: RawWriter,
    /// A trie of all appended anchors, which no reader reads. An anchor goes into it first, so that it is refused before
    /// the two copies know of it.
    pub(crate) appended: MetaTrie,
    /// All appended anchors, as readers can show that they have seen some of them.
    pub(crate) roll: Roll,
    /// The last appended anchor, of which the two copies were not told yet. To tell them may want memory, and an anchor
    /// on the roll cannot be taken back.
    pub(crate) waiting: Option<Told>,
    pub(crate) ender: E,
}

impl<E: Ends> Model for TrieWriter<E> {
    ghost use Rattle.std.specs.Prelude.{drop};
    ghost use Rattle.left_right.specs.Sides.{view as known_at};
    ghost use Rattle.table_switch.specs.Published.{WriterState, IsWriter, anchors_of, pending_of};

    ghost Value = { WriterState };

    ghost view = { λ w. record {
      switch = w.roll.switch;
      published = w.writer.desk.shown.value.added;
      pending = anchors_of (pending_of (drop w.writer.behind w.writer.log.items) w.waiting);
    } };

    ghost invariant = { λ w. IsWriter w.appended.added w.roll w.writer.desk.shown.value
        (known_at w.writer.desk.place) (pending_of (drop w.writer.behind w.writer.log.items) w.waiting) };
}

impl<E: Ends> Drop for TrieWriter<E> {
    fn drop(self) {
        let Self {
            writer,
            appended: _,
            roll: _,
            waiting: _,
            ender,
        } = self;
        ender.end(writer);
    }
}

impl<E: Ends> TrieWriter<E> {
    /// A reader that has seen all that is published, where there is a place left.
    pub fn reader(&mut self) -> Option<TrieReader>
        ensures seen { IfSome result (λ reader.
            reader ≡ record { switch = self.old.switch; anchors = self.old.published }) }
        ensures same { self.new ≡ self.old }
    {
        let mut place = self.writer.factory().reader().ok()?;
        place.learn::<Takes>(self.writer.tell::<Tells>());
        Some(TrieReader::at(place, self.writer.published().front()))
    }

    /// All anchors that were appended on this switch so far.
    pub fn front(&self) -> Front
        ensures { result ≡ front_of self.now }
    {
        self.roll.front()
    }

    /// The leaf that all appended anchors give for a key, those that are not published among them.
    pub fn find<L: Ledger>(&self, key: &[u8], steps: &mut Steps<L>) -> u32
        ensures cover { result ≡ cover (all_appended self.now) key.now }
        ensures counted { steps.old < steps.new }
        ensures cost { IsLogarithmic (length key.now) (steps.old + 2) steps.new }
    {
        self.appended.find(key, steps)
    }

    /// Whether an anchor was appended, or is the empty one.
    pub fn has<L: Ledger>(&self, anchor: &[u8], steps: &mut Steps<L>) -> bool
        ensures there { result ≡ true → IsThere (all_appended self.now) anchor.now }
        ensures new { result ≡ false → IsNew (all_appended self.now) anchor.now }
        ensures counted { steps.old < steps.new }
        ensures cost { IsLogarithmic (length anchor.now) (steps.old + 2) steps.new }
    {
        self.appended.has(anchor, steps)
    }

    /// Appends an anchor, which readers see from the next publish on. `after` is the leaf of the greatest anchor below
    /// it. It is refused where the trie of all appended anchors would refuse it; refused, it changes nothing.
    pub fn append(
        &mut self,
        alloc: Global,
        anchor: &Anchor,
        leaf: u32,
        after: u32,
    ) -> Result<(), TrieError>
        requires new { IsNew (all_appended self.old) anchor.now }
        requires after { after ≡ cover (all_appended self.old) anchor.now }
        ensures answer { RoomAnswer result (all_appended self.old) anchor.now }
        ensures switch { self.new.switch ≡ self.old.switch }
        ensures published { self.new.published ≡ self.old.published }
        ensures appended { OnOk result (self.new.pending
            ≡ self.old.pending ++ record { anchor = anchor.now; leaf = leaf } ∷ []) }
        ensures refused { OnErr result (self.new ≡ self.old) }
    {
        let anchor = anchor.as_bytes();
        self.appended.reserve(alloc, anchor)?;
        let appended = Appended::copied(alloc, anchor, leaf)?;
        send(&mut self.writer, &mut self.waiting)?;
        let Some(front) = self.roll.extend(&appended) else {
            return Err(TrieError::Memory);
        };
        // From here on nothing is refused.
        self.waiting = Some(Told { appended, front });
        self.appended.add(alloc, anchor, leaf, after).unwrap();
        Ok(())
    }

    /// Publishes all appended anchors at once. It waits for the readers that are inside the copy that it changes. Out of
    /// memory, nothing is published; the anchors stay appended, and the next publish has them.
    pub fn publish<R: Wait>(&mut self, rt: &R) -> Result<(), NoMemory>
        ensures switch { self.new.switch ≡ self.old.switch }
        ensures published { OnOk result (self.new.published ≡ all_appended self.old) }
        ensures pending { OnOk result (self.new.pending ≡ []) }
        ensures refused { OnErr result (self.new.published ≡ self.old.published) }
        ensures kept { OnErr result (self.new.pending ≡ self.old.pending) }
    {
        publish_all(rt, &mut self.writer, &mut self.waiting)
    }
}
