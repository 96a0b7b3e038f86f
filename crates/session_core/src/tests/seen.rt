//! What one caller has seen of a history whose map has one row at most.
ghost use Rattle.std.specs.Prelude.{◌≡◌, ◌+◌, ◌^◌, ◌≤◌, ◌<◌, [], ◌∷◌, IsTrue, IfOk, OnErr, unwrap_or, option_map};
ghost use Rattle.std.specs.Option.{option_copied};
ghost use Rattle.rdb_base.specs.declared.change.Change.TheVariants.{Del};
ghost use Rattle.rdb_base.specs.Maps.{changed, value_at};
ghost use Rattle.history_core.specs.Laws.{grown};
ghost use Rattle.history_core.specs.Passes.{front_of, map_of, entry_of};

use rdb_base::{Change, Entry, Key, NoMemory, Row, ToldEntries, Value};
use std::alloc::AllocError;
use std::marker::Model;

/// The entries that caller 0 has seen from a first number on, and the map after them. It began empty.
#[derive(Drop)]
pub struct Seen {
    row: Option<Row>,
    first: u64,
    made: u64,
    own: u64,
    safe: u64,
    next: u64,
    entries: ToldEntries,
}

impl Model for Seen {
    ghost use Rattle.std.specs.Prelude.{◌≡◌, ◌+◌, ◌^◌, ◌≤◌, [], ◌∷◌, length, unwrap_or, option_map};
    ghost use Rattle.rdb_base.specs.Maps.{applied_all};
    ghost use Rattle.history_core.specs.Passes.{PassState};

    ghost Value = { PassState };

    ghost view = { λ s. record {
      caller = 0;
      ordinal = s.own;
      seen = record { base = []; first = s.first; entries = s.entries };
      safe = s.safe;
      next = s.next;
      told = 0;
    } };

    ghost invariant = { λ s. record {
      made : length s.entries ≡ s.made;
      own : s.own ≤ s.made;
      most : s.first + s.made ≤ 2 ^ 62;
      map : applied_all [] s.entries ≡ unwrap_or (option_map (λ row. row ∷ []) s.row) [];
    } };
}

/// The row that an entry leaves of an empty map.
fn row_of(entry: Entry) -> Option<Row>
    ensures { unwrap_or (option_map (λ row. row ∷ []) result) [] ≡ changed [] entry.key entry.change }
{
    let Entry {
        caller: _,
        ordinal: _,
        key,
        change,
    } = entry;
    match change {
        Change::Put(value) => Some(Row { key, value }),
        Change::Del => None,
    }
}

impl Seen {
    /// Nothing is seen yet. The next entry gets the first number, and a compaction would get the next one.
    pub fn new(first: u64, next: u64) -> Seen
        requires { first ≤ 2 ^ 62 }
    {
        Seen {
            row: None,
            first,
            made: 0,
            own: 0,
            safe: first,
            next,
            entries: ToldEntries::new(),
        }
    }

    /// The number of the next entry.
    pub fn front(&self) -> u64
        ensures front { result ≡ front_of self.now }
        ensures most { result ≤ 2 ^ 62 }
        ensures caller { self.now.caller ≡ 0 }
    {
        self.first + self.made
    }

    /// The next number of a compaction.
    pub fn next(&self) -> u64
        ensures { result ≡ self.now.next }
    {
        self.next
    }

    /// The value at a key.
    pub fn get(&self, key: &Key) -> Option<&Value>
        ensures { option_copied result ≡ value_at (map_of self.now) key.now }
    {
        let Some(row) = &self.row else {
            return None;
        };
        if row.key.cmp(key).is_ne() {
            return None;
        }
        Some(&row.value)
    }

    /// Whether the map has no row but perhaps that of this key.
    fn is_free_for(&self, key: &Key) -> bool
        ensures { IsTrue result → changed (map_of self.now) key.now Del ≡ [] }
    {
        match &self.row {
            None => true,
            Some(row) => row.key.cmp(key).is_eq(),
        }
    }

    /// An entry comes to be seen, if there is room for its row.
    pub fn see(&mut self, entry: Entry) -> Result<u64, NoMemory>
        requires { front_of self.old < 2 ^ 62 }
        ensures ok { IfOk result (λ number. (number ≡ front_of self.old)
            × (self.new ≡ record self.old { seen = grown self.old.seen (entry ∷ []) })) }
        ensures err { OnErr result (self.new ≡ self.old) }
    {
        if !self.is_free_for(&entry.key) {
            return Err(AllocError);
        }
        let number = self.front();
        self.entries.push(&entry);
        self.made += 1;
        self.row = row_of(entry);
        Ok(number)
    }

    /// An update of this caller is entered.
    pub fn enter(&mut self, key: Key, change: Change) -> Result<u64, NoMemory>
        requires { front_of self.old < 2 ^ 62 }
        ensures ok { IfOk result (λ number. (number ≡ front_of self.old)
            × (self.new ≡ record self.old {
              ordinal = self.old.ordinal + 1;
              seen = grown self.old.seen (entry_of self.old.caller self.old.ordinal key change ∷ []);
            })) }
        ensures err { OnErr result (self.new ≡ self.old) }
    {
        let ordinal = self.own;
        let number = self.see(Entry {
            caller: 0,
            ordinal,
            key,
            change,
        })?;
        self.own += 1;
        Ok(number)
    }

    /// All that was seen is synced.
    pub fn save(&mut self) -> u64
        ensures number { result ≡ front_of self.old }
        ensures saved { self.new ≡ record self.old { safe = self.new.safe } }
        ensures later { self.old.safe ≤ self.new.safe }
        ensures safe { result ≤ self.new.safe }
    {
        let number = self.front();
        self.safe = self.safe.max(number);
        number
    }
}
