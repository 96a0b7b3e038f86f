//! The marks of pins.
ghost use Rattle.std.specs.Prelude.{◌≡◌, ◌+◌, ◌≤◌, ◌^◌, length};

use crate::front_note::FrontNote;
use crate::store_name::StoreName;
use std::marker::Model;

/// The seat of a pin: it knows the front of the list that its caller had seen. Contracts see it as what it knows.
#[derive(Drop)]
pub struct PinMark<K: StoreName> {
    note: FrontNote<K>,
}

impl<K: StoreName> Model for PinMark<K> {
    ghost use Rattle.front_rule.specs.declared.parts.NotePart.{NotePart};

    ghost Value = { NotePart };

    ghost view = { λ s. s.note };
}

impl<K: StoreName> PinMark<K> {
    pub(crate) fn of(note: FrontNote<K>) -> PinMark<K>
        ensures { result ≡ note }
    {
        PinMark { note }
    }

    /// The number after its last entry's.
    pub fn front(&self) -> u64
        ensures front { result ≡ K.first + length self.now.list }
        ensures within { result ≤ 2 ^ 62 }
    {
        self.note.front()
    }
}
