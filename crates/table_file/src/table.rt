ghost use Rattle.std.specs.Prelude.{◌≡◌, IfOk};
ghost use Rattle.block_code.specs.declared.format.TheConstants.{FIRST_LIMITS};
ghost use Rattle.table_file.specs.Answers.{Opens, IsSomeTable};
ghost use Rattle.table_file.specs.BlockPlaces.{HasBlocks};
ghost use Rattle.table_file.specs.Tables.{IsTable};

use crate::block_place::BlockPlace;
use crate::block_places::blocks_in;
use crate::held::{count_of, kept_of, key_of, value_of};
use crate::reading::wrong_place;
use crate::table_error::TableError;
use rdb_base::{Change, Key, NoMemory, Steps, Value};
use remix_seek::{Runs, Share};
use sha2::{Digest, Sha256};
use std::alloc::{AllocError, Global};
use std::marker::Model;
use std::sync::Arc;
use std::sync::ledger::Ledger;

/// What all owners of a table share.
#[derive(Drop)]
pub(crate) struct TableParts {
    /// The file's bytes, as they came.
    bytes: Vec<u8>,
    /// Where each pair begins in them.
    starts: Vec<u32>,
    /// The sizes of all pairs together.
    size: u128,
}

/// A table in memory. Contracts see its run and its bytes. Its owners share one copy of them.
#[derive(Drop)]
pub struct Table {
    parts: Arc<TableParts, Global>,
}

impl Model for Table {
    ghost use Rattle.std.specs.Arc.{arc_value};
    ghost use Rattle.table_file.specs.Held.{TableState, IsHeld, pairs_held};

    ghost Value = { TableState };

    ghost view = { λ t. record { run = pairs_held (arc_value t.parts).bytes.items (arc_value t.parts).starts.items; bytes = (arc_value t.parts).bytes.items } };

    ghost invariant = { λ t. IsHeld (arc_value t.parts).bytes.items (arc_value t.parts).starts.items (arc_value t.parts).size };
}

impl Table {
    /// The table that these bytes are. They may be any at all, and as many as they like: it takes no memory before all
    /// of them were found to be a table, and then four bytes a pair.
    ///
    /// If their SHA-256 is not the digest, that is told first, with both. Then the first wrong place of bytes that are
    /// no table is told.
    pub fn open(alloc: Global, bytes: Vec<u8>, digest: &[u8; 32]) -> Result<Table, TableError>
        ensures { Opens bytes.items digest.now result }
    {
        let found = Sha256::digest(bytes.as_slice());
        if found != *digest {
            return Err(TableError::WrongDigest {
                kept: *digest,
                found,
            });
        }
        match wrong_place(bytes.as_slice()) {
            Some(at) => Err(TableError::BadTable { at: at as u64 }),
            None => Ok(Table::held(alloc, bytes)?),
        }
    }

    /// The table of these bytes, which are one.
    pub(crate) fn held(alloc: Global, bytes: Vec<u8>) -> Result<Table, NoMemory>
        requires { IsSomeTable bytes.items }
        ensures bytes { IfOk result (λ table. table.bytes ≡ bytes.items) }
        ensures run { IfOk result (λ table. IsTable FIRST_LIMITS table.run bytes.items) }
    {
        let (starts, size) = kept_of(alloc, bytes.as_slice())?;
        let parts = TableParts {
            bytes,
            starts,
            size,
        };
        Ok(Table {
            parts: Arc::new(alloc, parts)?,
        })
    }

    /// The file's bytes, as they came. It takes no memory.
    pub fn bytes(&self) -> &[u8]
        ensures bytes { result.now ≡ self.now.bytes }
        ensures table { IsTable FIRST_LIMITS self.now.run result.now }
    {
        self.parts.bytes.as_slice()
    }

    /// Where its blocks lie, from the first on.
    pub fn blocks(&self, alloc: Global) -> Result<Vec<BlockPlace>, NoMemory>
        ensures { IfOk result (λ found. HasBlocks self.now.run self.now.bytes found.items) }
    {
        blocks_in(alloc, self.parts.bytes.as_slice())
    }
}

impl Runs for Table {
    ghost run = { λ table. table.run };

    fn len(&self) -> u32 {
        count_of(self.parts.bytes.as_slice(), self.parts.starts.as_slice())
    }

    fn size(&self) -> u128 {
        self.parts.size
    }

    fn lent_key<L: Ledger>(&self, place: u32, steps: &mut Steps<L>) -> &[u8] {
        steps.tick();
        key_of(
            self.parts.bytes.as_slice(),
            self.parts.starts.as_slice(),
            place,
        )
    }

    fn lent_value(&self, place: u32) -> Option<&[u8]> {
        value_of(
            self.parts.bytes.as_slice(),
            self.parts.starts.as_slice(),
            place,
        )
    }

    fn key_at<L: Ledger>(
        &self,
        alloc: Global,
        place: u32,
        steps: &mut Steps<L>,
    ) -> Result<Key, NoMemory> {
        match Key::try_new(alloc, self.lent_key(place, steps)) {
            Ok(key) => Ok(key),
            Err(_) => Err(AllocError),
        }
    }

    fn change_at(&self, alloc: Global, place: u32) -> Result<Change, NoMemory> {
        let Some(value) = self.lent_value(place) else {
            return Ok(Change::Del);
        };
        match Value::try_new(alloc, value) {
            Ok(value) => Ok(Change::Put(value)),
            Err(_) => Err(AllocError),
        }
    }
}

/// All owners of a table share its bytes: nothing is copied.
impl Share for Table {
    fn share(&self, alloc: Global) -> Result<Table, NoMemory> {
        Ok(Table {
            parts: Arc::try_clone(&self.parts)?,
        })
    }
}
