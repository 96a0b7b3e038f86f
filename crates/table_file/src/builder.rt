ghost use Rattle.std.specs.Prelude.{◌≡◌, ◌≤◌, length, IfOk};
ghost use Rattle.sha2.specs.Sha256.{sha256};
ghost use Rattle.block_code.specs.declared.format.TheConstants.{FIRST_LIMITS};
ghost use Rattle.table_file.specs.declared.format.TheConstants.{TABLE_MAX};
ghost use Rattle.table_file.specs.Packing.{packed};
ghost use Rattle.table_file.specs.Tables.{IsTable, table_of};

use crate::table::Table;
use crate::writing::{Draft, draft_of, finished};
use rdb_base::{NoMemory, SortedRun};
use sha2::{Digest, Sha256};
use std::alloc::Global;

/// Writes runs as tables.
pub struct TableBuilder;

impl TableBuilder {
    /// The bytes of the table of this run. A pair goes into the open block while it fits, else it begins the next one.
    ///
    /// A table of more than `TABLE_MAX` bytes is out of memory.
    pub fn build(alloc: Global, run: &SortedRun) -> Result<Vec<u8>, NoMemory>
        requires { 1 ≤ length run.now }
        ensures bytes { IfOk result (λ bytes. bytes.items ≡ table_of (packed run.now)) }
        ensures table { IfOk result (λ bytes. IsTable FIRST_LIMITS run.now bytes.items) }
        ensures len { IfOk result (λ bytes. length bytes.items ≤ TABLE_MAX) }
    {
        let pairs = run.as_slice();
        let Draft { units, counts } = draft_of(alloc, pairs)?;
        finished(units, counts.as_slice(), pairs.len())
    }

    /// The same as a table in memory, with the SHA-256 of its bytes. What was just written is not tested again.
    pub fn table(alloc: Global, run: &SortedRun) -> Result<(Table, [u8; 32]), NoMemory>
        requires { 1 ≤ length run.now }
        ensures run { IfOk result (λ built. built.0.run ≡ run.now) }
        ensures bytes { IfOk result (λ built. built.0.bytes ≡ table_of (packed run.now)) }
        ensures digest { IfOk result (λ built. built.1 ≡ sha256 built.0.bytes) }
    {
        let bytes = TableBuilder::build(alloc, run)?;
        let digest = Sha256::digest(bytes.as_slice());
        let table = Table::held(alloc, bytes)?;
        Ok((table, digest))
    }
}
