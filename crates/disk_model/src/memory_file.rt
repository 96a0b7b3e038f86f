ghost use Rattle.std.specs.Prelude.{◌≡◌, ◌≤◌, ◌<◌, ◌+◌, ◌^◌, length, IfOk, OnOk, OnErr};
ghost use Rattle.disk_model.specs.FileState.{changed, file_written, file_cut, file_of, crash_image, MayLeave};

use crate::bytes::{read_from, replace, write_over};
use crate::change::Change;
use crate::marks::crash_bytes;
use std::alloc::{AllocError, Global};
use std::marker::Model;

/// The bytes of a strip in memory, those of its last sync, and what changed since then.
#[derive(Drop)]
pub(crate) struct MemoryFile {
    bytes: Vec<u8>,
    synced: Vec<u8>,
    changes: Vec<Change>,
    // Up to this place no byte changed since the last sync.
    same: usize,
}

impl Model for MemoryFile {
    ghost use Rattle.disk_model.specs.FileState.{FileState, IsSoundFile};
    ghost use Rattle.std.specs.Prelude.{vec_capacity};

    ghost Value = { FileState };

    ghost view = { λ f. record { bytes = f.bytes.items; synced = f.synced.items; changes = f.changes.items } };

    ghost invariant = { λ f. IsSoundFile f.bytes.items f.synced.items f.changes.items f.same
        (vec_capacity f.bytes) (vec_capacity f.synced) };
}

impl MemoryFile {
    ghost use Rattle.disk_model.specs.declared.change.Change.TheVariants.{Written, CutTo};

    /// These bytes, all of them synced.
    pub(crate) fn new(alloc: Global, bytes: Vec<u8>) -> Result<MemoryFile, AllocError>
        ensures { IfOk result (λ file. file ≡ file_of bytes.items) }
    {
        Ok(MemoryFile {
            synced: Vec::from_slice(alloc, &bytes)?,
            changes: Vec::new(alloc),
            same: bytes.len(),
            bytes,
        })
    }

    /// What a read gives.
    pub(crate) fn as_bytes(&self) -> &[u8]
        ensures { result.now ≡ self.now.bytes }
    {
        &self.bytes
    }

    /// A write or a cut was begun, and failed: only what a crash may leave changes.
    pub(crate) fn fail(&mut self, change: Change) -> Result<(), AllocError>
        ensures ok { OnOk result (self.new ≡ changed change self.old) }
        ensures err { OnErr result (self.new ≡ self.old) }
    {
        self.changes.push(change)?;
        Ok(())
    }

    /// Writes a piece from place `at` on.
    pub(crate) fn write(&mut self, at: u64, piece: &[u8]) -> Result<(), AllocError>
        requires { at ≤ length self.old.bytes }
        ensures ok { OnOk result (self.new ≡ file_written at piece.now self.old) }
        ensures short { OnOk result (at + length piece.now < 2 ^ 63) }
        ensures err { OnErr result (self.new ≡ self.old) }
    {
        let place = at as usize;
        let count = piece.len() as u64;
        let len = self.bytes.len();
        let end = place + piece.len();
        self.bytes.reserve(end.saturating_sub(len))?;
        self.synced.reserve(end.saturating_sub(self.synced.len()))?;
        self.changes.push(Change::Written { at, count })?;

        // From here on nothing is refused.
        write_over(&mut self.bytes, place, piece).unwrap();
        self.same = self.same.min(place);
        Ok(())
    }

    /// Leaves the first `at` bytes.
    pub(crate) fn cut(&mut self, at: u64) -> Result<(), AllocError>
        requires { at ≤ length self.old.bytes }
        ensures ok { OnOk result (self.new ≡ file_cut at self.old) }
        ensures err { OnErr result (self.new ≡ self.old) }
    {
        self.changes.push(Change::CutTo { at })?;
        self.bytes.truncate(at as usize);
        self.same = self.same.min(at as usize);
        Ok(())
    }

    /// Syncs: copies what changed, from the first changed place on. It takes no memory.
    pub(crate) fn sync(&mut self)
        ensures { self.new ≡ file_of self.old.bytes }
    {
        let (_, rest) = self.bytes.as_slice().split_at(self.same);
        self.synced.truncate(self.same);
        self.synced.extend_from_slice(rest).unwrap();
        self.changes.clear();
        self.same = self.bytes.len();
    }

    /// Crashes, and leaves the image that is picked. It takes no memory.
    pub(crate) fn crash(&mut self, pick: u64)
        ensures left { self.new ≡ file_of (crash_image pick self.old) }
        ensures image { MayLeave self.old (crash_image pick self.old) }
    {
        crash_bytes(&mut self.bytes, &self.synced, &self.changes, pick);
        replace(&mut self.synced, &self.bytes);
        self.changes.clear();
        self.same = self.bytes.len();
    }
}
