ghost use Rattle.std.specs.Prelude.{◌≡◌, ◌+◌, ◌<◌, IfOk, OnOk, OnErr, IsErr};
ghost use Rattle.std.specs.Option.{option_copied};
ghost use Rattle.rdb_base.specs.Levels.{with_pair};
ghost use Rattle.rdb_base.specs.Runs.{IsRun, change_at, pair_size};
ghost use Rattle.memory_rows.specs.Memories.{level, empty, after_merge, IsReadyFor, MakesRoom};

use crate::limits::MERGE_SIZE;
use crate::merging::merge_into;
use crate::uncounted::{find_in, make_room, set_in};
use leaf_table::{LeafTable, SplitError};
use meta_trie::MetaTrie;
use rdb_base::{Change, Key, NoMemory, Pair, SortedRun, size};
use std::alloc::{AllocError, Global};
use std::marker::{Brand, Model};
use std::mem::replace;
use std::sync::ledger::Blank;

/// The rows of a store in memory. Changes since the last merge lie in leaves, all others in one older run.
#[derive(Drop)]
pub struct MemoryRows {
    pub(crate) table: LeafTable,
    pub(crate) older: SortedRun,
    /// The sizes of all changes since the last merge together, in bytes.
    pub(crate) weight: u64,
}

impl Model for MemoryRows {
    ghost use Rattle.rdb_base.specs.Runs.{IsRun};
    ghost use Rattle.memory_rows.specs.Memories.{MemoryState};

    ghost Value = { MemoryState };

    ghost view = { λ m. record { leaves = m.table; older = m.older; weight = m.weight } };

    ghost invariant = { λ m. IsRun m.older };
}

impl MemoryRows {
    /// No row yet. The leaves take their memory as they are needed.
    pub fn make(alloc: Global) -> Result<MemoryRows, NoMemory>
        ensures { IfOk result (λ rows. rows ≡ empty) }
    {
        Ok(MemoryRows {
            table: LeafTable::make(alloc)?,
            older: SortedRun::new(alloc),
            weight: 0,
        })
    }

    /// The newest change at a key, where there is one.
    pub fn find(&self, key: &Key) -> Option<&Change>
        ensures change { option_copied result ≡ change_at (level self.now) key.now }
        ensures rises { IsRun (level self.now) }
    {
        find_in::<Brand>(&self.table, &self.older, key, Blank::new(1))
    }

    /// Makes room for one change at a key. Where a merge is due, it comes first. Refused, all is as it was.
    pub fn reserve(&mut self, alloc: Global, key: &Key) -> Result<(), NoMemory>
        ensures ready { OnOk result (IsReadyFor self.new key.now) }
        ensures same { level self.new ≡ level self.old }
        ensures makes { OnOk result (MakesRoom self.old key.now self.new) }
        ensures refused { OnErr result (self.new ≡ self.old) }
    {
        if self.weight >= MERGE_SIZE {
            return self.merge(alloc);
        }
        match make_room::<Brand>(alloc, &mut self.table, key, Blank::new(1)) {
            Ok(()) => Ok(()),
            Err(SplitError::Full) => self.merge(alloc),
            Err(SplitError::Memory) => Err(AllocError),
        }
    }

    /// Makes the change at a key for which there is room. It takes no memory.
    pub fn set_reserved(&mut self, pair: Pair)
        requires ready { IsReadyFor self.old pair.key }
        ensures set { level self.new ≡ with_pair (level self.old) pair }
        ensures older { self.new.older ≡ self.old.older }
        ensures weight { self.new.weight ≡ self.old.weight + pair_size pair }
    {
        self.weight += size(&pair.key, &pair.change);
        set_in::<Brand>(&mut self.table, pair, Blank::new(1));
    }

    /// Merges all into the older run. The leaves are emptied and used again. All memory is taken before the first change.
    fn merge(&mut self, alloc: Global) -> Result<(), NoMemory>
        ensures merged { OnOk result (self.new ≡ after_merge self.old) }
        ensures refused { OnErr result (self.new ≡ self.old) }
    {
        let Some(most) = self.table.len().checked_add(self.older.len()) else {
            return Err(AllocError);
        };
        let trie = MetaTrie::make(alloc)?;
        let mut newer = Vec::with_capacity(alloc, self.table.len())?;
        let mut merged = Vec::with_capacity(alloc, most)?;

        // From here on nothing is refused.
        self.table.move_into(&mut newer, trie);
        let older = replace(&mut self.older, SortedRun::new(alloc)).into_pairs();
        merge_into(newer, older, &mut merged);
        self.older = SortedRun::of(merged);
        self.weight = 0;
        Ok(())
    }
}
