//! Entries that are spelled as they come, into one buffer.
ghost use Rattle.std.specs.Prelude.{◌≡◌, ◌+◌, ◌^◌, ◌<◌, ◌≤◌, ◌++◌, ◌∷◌, [], true, false, length, vec_capacity, Ok, OnOk, OnErr};
ghost use Rattle.entry_code.specs.Payloads.{entries_payload, entries_of, entry_field, entry_fields};
ghost use Rattle.entry_code.specs.declared.format.TheConstants.{ENTRIES_HEAD, ENTRY_MAX};
ghost use Rattle.rdb_base.specs.declared.limits.TheConstants.{NUMBER_MAX};

use crate::encoding::{add_reserved, put_head, tell_limits};
use crate::format::ENTRIES_HEAD;
use rdb_base::{Entry, NoMemory, ToldEntries};
use std::alloc::Global;
use std::marker::Model;
use std::mem;

/// Entries in a row, spelled one after another.
#[derive(Drop)]
pub struct Batch {
    bytes: Vec<u8>,
    first: u64,
    count: u32,
    lent: bool,
    told: ToldEntries,
}

impl Model for Batch {
    ghost use Rattle.std.specs.Prelude.{length, vec_capacity};
    ghost use Rattle.entry_code.specs.Batches.{BatchState, IsBatch, room_in};

    ghost Value = { BatchState };

    ghost view = { λ b. record { first = b.first; entries = b.told; room = room_in (vec_capacity b.bytes) (length b.bytes.items); lent = b.lent } };

    ghost invariant = { λ b. IsBatch b.bytes.items b.count b.first b.told b.lent };
}

/// Room for the head, to be filled when the payload is lent.
fn make_head(bytes: &mut Vec<u8>)
    requires { ENTRIES_HEAD ≤ vec_capacity bytes.old }
    ensures len { length bytes.new.items ≡ ENTRIES_HEAD }
    ensures capacity { vec_capacity bytes.old ≤ vec_capacity bytes.new }
{
    bytes.clear();
    bytes.extend_from_slice(&[0; ENTRIES_HEAD]).unwrap();
}

impl Batch {
    /// No entry. The first will have this number.
    pub fn new(alloc: Global, first: u64) -> Batch
        requires { first ≤ NUMBER_MAX }
        ensures first { result.first ≡ first }
        ensures entries { result.entries ≡ [] }
        ensures here { result.lent ≡ false }
    {
        Batch {
            bytes: Vec::new(alloc),
            first,
            count: 0,
            lent: false,
            told: ToldEntries::new(),
        }
    }

    /// Makes room for so many bytes of entries more.
    pub fn reserve(&mut self, more: usize) -> Result<(), NoMemory>
        requires here { self.old.lent ≡ false }
        requires few { more < 2 ^ 20 }
        ensures room { OnOk result (more ≤ self.new.room) }
        ensures kept { self.old.room ≤ self.new.room }
        ensures first { self.new.first ≡ self.old.first }
        ensures entries { self.new.entries ≡ self.old.entries }
        ensures here { self.new.lent ≡ false }
    {
        self.bytes.reserve(ENTRIES_HEAD + more)?;
        if self.bytes.len() < ENTRIES_HEAD {
            make_head(&mut self.bytes);
        }
        Ok(())
    }

    /// One entry more. It uses up no more room than its bytes.
    pub fn push(&mut self, entry: &Entry)
        requires here { self.old.lent ≡ false }
        requires room { length (entry_field entry.now) ≤ self.old.room }
        requires few { length (entry_fields self.old.entries) < 2 ^ 29 }
        requires end { self.old.first + length self.old.entries < NUMBER_MAX }
        ensures first { self.new.first ≡ self.old.first }
        ensures entries { self.new.entries ≡ self.old.entries ++ entry.now ∷ [] }
        ensures left { self.old.room ≤ self.new.room + length (entry_field entry.now) }
        ensures fields { length (entry_fields self.new.entries) ≤ length (entry_fields self.old.entries) + ENTRY_MAX }
        ensures here { self.new.lent ≡ false }
    {
        tell_limits(entry);
        add_reserved(&mut self.bytes, entry);
        self.count += 1;
        self.told.push(entry);
    }

    /// Whether its payload is lent.
    pub fn is_lent(&self) -> bool
        ensures { result ≡ self.now.lent }
    {
        self.lent
    }

    /// How many bytes of entries there are.
    pub fn pending(&self) -> usize
        requires here { self.now.lent ≡ false }
        ensures { result ≡ length (entry_fields self.now.entries) }
    {
        if self.bytes.len() < ENTRIES_HEAD {
            return 0;
        }
        self.bytes.len() - ENTRIES_HEAD
    }

    /// The payload will be read as these entries, and is short. It does nothing.
    pub fn tell_readable(&self)
        requires some { 1 ≤ length self.now.entries }
        ensures reads { entries_of (entries_payload self.now.first self.now.entries) ≡ Ok (record { first = self.now.first; entries = self.now.entries }) }
        ensures long { length (entries_payload self.now.first self.now.entries) ≡ ENTRIES_HEAD + length (entry_fields self.now.entries) }
    {
        let _count = self.count;
    }

    /// The payload. Until it comes back, or the batch begins again, nothing is added.
    pub fn lend(&mut self, room: Vec<u8>) -> Vec<u8>
        requires here { self.old.lent ≡ false }
        requires some { 1 ≤ length self.old.entries }
        ensures payload { result.items ≡ entries_payload self.old.first self.old.entries }
        ensures first { self.new.first ≡ self.old.first }
        ensures entries { self.new.entries ≡ self.old.entries }
        ensures lent { self.new.lent ≡ true }
    {
        put_head(&mut self.bytes, self.first, self.count);
        self.lent = true;
        mem::replace(&mut self.bytes, room)
    }

    /// The payload comes back.
    pub fn put_back(&mut self, payload: Vec<u8>)
        requires lent { self.old.lent ≡ true }
        requires payload { payload.items ≡ entries_payload self.old.first self.old.entries }
        ensures first { self.new.first ≡ self.old.first }
        ensures entries { self.new.entries ≡ self.old.entries }
        ensures here { self.new.lent ≡ false }
    {
        self.bytes = payload;
        self.lent = false;
    }

    /// The payload stays where it is: the batch begins after its last entry.
    pub fn begin_again(&mut self)
        requires lent { self.old.lent ≡ true }
        ensures first { self.new.first ≡ self.old.first + length self.old.entries }
        ensures entries { self.new.entries ≡ [] }
        ensures here { self.new.lent ≡ false }
    {
        self.bytes.clear();
        self.first += self.count as u64;
        self.count = 0;
        self.lent = false;
        self.told = ToldEntries::new();
    }

    /// The number after its last entry.
    pub fn end(&self) -> u64
        ensures number { result ≡ self.now.first + length self.now.entries }
        ensures most { result ≤ NUMBER_MAX }
    {
        self.first + self.count as u64
    }

    /// Whether it has no entry.
    pub fn is_empty(&self) -> bool
        ensures some { result ≡ false → 1 ≤ length self.now.entries }
        ensures none { result ≡ true → self.now.entries ≡ [] }
    {
        self.count == 0
    }
}
