//! What lies under the lock.
ghost use Rattle.std.specs.Prelude.{◌≡◌, ◌+◌, ◌^◌, ◌++◌, ◌∷◌, [], length, IfSome, OnSome, IfNone};
ghost use Rattle.front_rule.specs.Known.{pen_with, pass_with, learnt, note_of_pen};
ghost use Rattle.front_callers.specs.Callers.{IsOverAllKeys, entry_of};

use front_rule::{LeafMark, Pass, Pen, StoreName, append};
use rdb_base::{Change, Entry, Key};
use std::marker::Model;

/// The pen, and the mark of the one leaf, which is over all keys. Contracts see it as what the pen knows.
///
/// # Threads
///
/// It lies in a `Mutex`. Each caller has its pass outside, and hands it to `put` while it holds the lock.
#[derive(Drop)]
pub struct SharedHistory<K: StoreName> {
    pen: Pen<K>,
    leaf: LeafMark<K>,
}

impl<K: StoreName> Model for SharedHistory<K> {
    ghost use Rattle.std.specs.Prelude.{◌≡◌};
    ghost use Rattle.front_rule.specs.declared.parts.PenPart.{PenPart};
    ghost use Rattle.front_callers.specs.Callers.{IsOverAllKeys};

    ghost Value = { PenPart };

    ghost view = { λ s. s.pen };

    ghost invariant = { λ s. IsOverAllKeys s.pen s.leaf × (s.pen.made ≡ K.callers) };
}

impl<K: StoreName> SharedHistory<K> {
    pub fn new(pen: Pen<K>, leaf: LeafMark<K>) -> SharedHistory<K>
        requires leaf { IsOverAllKeys pen leaf }
        requires callers { pen.made ≡ K.callers }
        ensures { result ≡ pen }
    {
        SharedHistory { pen, leaf }
    }

    /// The pen alone.
    pub fn into_pen(self) -> Pen<K>
        ensures pen { result ≡ self }
        ensures callers { result.made ≡ K.callers }
    {
        let SharedHistory { pen, leaf: _ } = self;
        pen
    }

    /// Appends one more entry of the pass's caller, and answers its number: pen and pass have then seen it, and all
    /// before it. None, and the same history, if no number is left; the pass has then seen all that there is.
    #[tactic(auto, using(front_rule::proofs::KeyLemmas::in_range_all))]
    pub fn put(&mut self, pass: &mut Pass<K>, key: Key, change: Change) -> Option<u64>
        ensures number { IfSome result (λ n. n ≡ K.first + length self.old.list) }
        ensures pen { OnSome result (self.new ≡ pen_with self.old (entry_of pass.old key change)) }
        ensures pass { OnSome result (pass.new ≡ pass_with pass.old self.old (entry_of pass.old key change)) }
        ensures own { OnSome result (pass.new.own ≡ pass.old.own ++ entry_of pass.old key change ∷ []) }
        ensures caller { pass.new.caller ≡ pass.old.caller }
        ensures spent { IfNone result (K.first + length self.old.list ≡ 2 ^ 62) }
        ensures same { IfNone result (self.new ≡ self.old) }
        ensures learnt { IfNone result (pass.new ≡ learnt pass.old (note_of_pen self.old)) }
    {
        let entry = Entry {
            caller: pass.caller(),
            ordinal: pass.ordinal(),
            key,
            change,
        };
        append(&mut self.pen, &mut self.leaf, pass, &entry).ok()
    }
}
