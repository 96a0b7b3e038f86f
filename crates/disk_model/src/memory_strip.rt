ghost use Rattle.std.specs.Prelude.{◌≡◌, ◌≤◌, IfOk, ◌∷◌, [], ◌++◌};

use crate::bytes::read_from;
use crate::change::Change;
use crate::limits::STRIP_MAX;
use crate::memory_file::MemoryFile;
use crate::past::Past;
use crate::tally::Tally;
use crate::{DeviceError, Strip};
use std::alloc::{AllocError, Global};
use std::marker::Model;

/// A strip in memory. Contracts see its bytes and its crash images: it keeps the bytes of its last sync,
/// and which ranges changed since then.
///
/// The calls with the numbers of a list fail. Of the others only a write and a cut may fail, where memory runs out.
/// A failed call changes nothing that a read gives. But a crash after a write or cut of the list may leave it done, or
/// done in part, as it may after one that was not synced. One that ran out of memory leaves all as it was.
#[derive(Drop)]
pub struct MemoryStrip {
    tally: Tally,
    file: MemoryFile,
    past: Past<MemoryFile>,
}

impl Model for MemoryStrip {
    ghost use Rattle.disk_model.specs.FileState.{FileState};
    ghost use Rattle.disk_model.specs.MemoryState.{MemoryState};

    ghost Value = { MemoryState FileState };

    ghost view = { λ s. record { tally = s.tally; held = s.file; past = s.past } };
}

impl MemoryStrip {
    ghost use Rattle.disk_model.specs.Crashes.{Only};
    ghost use Rattle.disk_model.specs.FileState.{MayLeave, crash_image, file_of};
    ghost use Rattle.disk_model.specs.MemoryState.{begun};
    ghost use Rattle.disk_model.specs.Tallies.{is_listed, restarted};

    /// A strip with these bytes, all of them synced. The calls with the numbers in `failing` fail,
    /// counted from 0 over all calls. It may answer `AllocError` at any time.
    pub fn new(
        alloc: Global,
        device: u8,
        bytes: Vec<u8>,
        failing: Vec<u64>,
    ) -> Result<MemoryStrip, AllocError>
        requires { device ≤ STRIP_MAX }
        ensures file { IfOk result (λ strip. strip.held ≡ file_of bytes.items) }
        ensures past { IfOk result (λ strip. strip.past ≡ []) }
        ensures failing { IfOk result (λ strip. strip.tally.failing ≡ failing.items) }
        ensures calls { IfOk result (λ strip. strip.tally.calls ≡ 0) }
        ensures device { IfOk result (λ strip. strip.tally.book.name.device ≡ device) }
        ensures faults { IfOk result (λ strip. strip.tally.book.count ≡ 0) }
    {
        Ok(MemoryStrip {
            tally: Tally::new(alloc, device, failing)?,
            file: MemoryFile::new(alloc, bytes)?,
            past: Past::new(),
        })
    }

    /// Its bytes.
    pub fn as_bytes(&self) -> &[u8]
        ensures { result.now ≡ self.now.held.bytes }
    {
        self.file.as_bytes()
    }

    /// How many calls were made.
    pub fn calls(&self) -> u64
        ensures { result ≡ self.now.tally.calls }
    {
        self.tally.calls()
    }

    /// How many units were drawn from its book.
    pub fn faults(&self) -> u64
        ensures { result ≡ self.now.tally.book.count }
    {
        self.tally.faults()
    }

    /// The strip after a crash now, which leaves one of its crash images. Of the bytes and the length
    /// since the last sync there is left, by `pick mod 4`:
    ///
    /// | pick | What a crash leaves |
    /// |---|---|
    /// | 0 | the bytes of the last sync |
    /// | 1 | the bytes that a read gives |
    /// | 2 | those, with FF in place of each that was or was to be written since |
    /// | 3 | those, with A5 in place of each that was or was to be written since |
    ///
    /// All is synced then. No call is to fail, and calls count from 0. The book goes on. It takes no memory.
    pub fn crash(mut self, pick: u64) -> MemoryStrip
        ensures file { result.held ≡ file_of (crash_image pick self.held) }
        ensures content { result.held.bytes ≡ crash_image pick self.held }
        ensures image { MayLeave self.held result.held.bytes }
        ensures synced { Only result.held.bytes (MayLeave result.held) }
        ensures tally { result.tally ≡ restarted self.tally }
        ensures past { result.past ≡ self.past ++ self.held ∷ [] }
    {
        self.past.push(&self.file);
        self.file.crash(pick);
        self.tally.restart();
        self
    }

    /// Counts a call, and answers whether it is to fail.
    fn begin(&mut self) -> bool
        ensures listed { result ≡ is_listed self.old.tally }
        ensures state { self.new ≡ begun self.old }
    {
        self.past.push(&self.file);
        self.tally.begin()
    }
}

impl Strip for MemoryStrip {
    ghost use Rattle.std.specs.Prelude.{◌+◌, ◌<◌, ◌^◌, length, take, true, false, IsOk, OnOk, OnErr};
    ghost use Rattle.disk_model.specs.Crashes.{Follows, Narrows, Only};
    ghost use Rattle.disk_model.specs.Strips.{Holds, Fills, Torn, Cut};
    ghost use Rattle.disk_model.specs.FileState.{MayLeave, changed, file_written, file_cut, file_of};
    ghost use Rattle.disk_model.specs.Pasts.{LeftSince};
    ghost use Rattle.disk_model.specs.MemoryState.{Goes, IsMemoryCall};
    ghost use Rattle.disk_model.specs.Tallies.{is_listed, FailsAsListed, EndsAsListed};
    ghost use Rattle.std.proofs.Common.{inl, refl};
    ghost use Rattle.disk_model.specs.PastLaws.{since-earlier, since-now};
    ghost use Rattle.disk_model.specs.declared.change.Change.TheVariants.{Written, CutTo};

    ghost book = { λ s. s.tally.book.name };

    ghost count = { λ s. s.tally.book.count };

    ghost calls = { λ s. s.tally.calls };

    ghost tells = { λ s. true };

    ghost content = { λ s. s.held.bytes };

    ghost tells_images = { λ s. true };

    ghost may_leave = { λ s c. MayLeave s.held c };

    ghost moment = { λ s. length s.past };

    ghost left_since = { λ s t c. LeftSince MayLeave s.past s.held t c };

    ghost own_image = { λ s told images. inl refl };

    ghost counts_now = { λ s t c earlier now. inl now };

    ghost counts_earlier = { λ s t u c earlier left. since-earlier MayLeave s.past s.held t u c earlier left };

    ghost only_now = { λ s c left. since-now MayLeave s.past s.held c left };

    fn len(&mut self, alloc: Global) -> Result<u64, DeviceError>
        ensures listed { EndsAsListed self.old.tally result }
        ensures ok { is_listed self.old.tally ≡ false → IsOk result }
        ensures state { Goes self.old self.new (λ file. file ≡ self.old.held)
            (λ file. file ≡ self.old.held) result }
        ensures length { IfOk result (λ len. len ≡ length self.old.held.bytes) }
        ensures short { IfOk result (λ len. len < 2 ^ 63) }
        ensures content { self.new.held.bytes ≡ self.old.held.bytes }
        ensures images { Narrows (MayLeave self.old.held) (MayLeave self.new.held) }
        ensures call { IsMemoryCall MayLeave (λ s. MayLeave s.held) self.old self.new result }
    {
        if self.begin() {
            return Err(self.tally.fail(alloc));
        }
        Ok(self.file.as_bytes().len() as u64)
    }

    fn read(&mut self, alloc: Global, at: u64, into: &mut [u8]) -> Result<usize, DeviceError>
        ensures listed { EndsAsListed self.old.tally result }
        ensures ok { is_listed self.old.tally ≡ false → IsOk result }
        ensures state { Goes self.old self.new (λ file. file ≡ self.old.held)
            (λ file. file ≡ self.old.held) result }
        ensures filled { IfOk result (λ count. Fills self.old.held.bytes at count into.old into.new) }
        ensures fits { IfOk result (λ count. count ≤ length into.old) }
        ensures content { self.new.held.bytes ≡ self.old.held.bytes }
        ensures images { Narrows (MayLeave self.old.held) (MayLeave self.new.held) }
        ensures call { IsMemoryCall MayLeave (λ s. MayLeave s.held) self.old self.new result }
    {
        if self.begin() {
            return Err(self.tally.fail(alloc));
        }
        Ok(read_from(self.file.as_bytes(), at, into))
    }

    fn write_at(&mut self, alloc: Global, at: u64, bytes: &[u8]) -> Result<(), DeviceError>
        requires { at ≤ length self.old.held.bytes }
        ensures listed { FailsAsListed self.old.tally result }
        ensures state { Goes self.old self.new (λ file. file ≡ file_written at bytes.now self.old.held)
            (λ file. file ≡ changed (Written at (length bytes.now)) self.old.held) result }
        ensures written { OnOk result (Holds self.old.held.bytes at bytes.now self.new.held.bytes) }
        ensures refused { OnErr result (self.new.held.bytes ≡ self.old.held.bytes) }
        ensures short { OnOk result (at + length bytes.now < 2 ^ 63) }
        ensures images { Follows (Torn at (length bytes.now)) (MayLeave self.old.held) (MayLeave self.new.held) }
        ensures call { IsMemoryCall MayLeave (λ s. MayLeave s.held) self.old self.new result }
    {
        let count = bytes.len() as u64;
        if self.begin() {
            self.file.fail(Change::Written { at, count })?;
            return Err(self.tally.fail(alloc));
        }
        self.file.write(at, bytes)?;
        Ok(())
    }

    fn cut(&mut self, alloc: Global, at: u64) -> Result<(), DeviceError>
        requires { at ≤ length self.old.held.bytes }
        ensures listed { FailsAsListed self.old.tally result }
        ensures state { Goes self.old self.new (λ file. file ≡ file_cut at self.old.held)
            (λ file. file ≡ changed (CutTo at) self.old.held) result }
        ensures cut { OnOk result (self.new.held.bytes ≡ take at self.old.held.bytes) }
        ensures refused { OnErr result (self.new.held.bytes ≡ self.old.held.bytes) }
        ensures images { Follows (Cut at) (MayLeave self.old.held) (MayLeave self.new.held) }
        ensures call { IsMemoryCall MayLeave (λ s. MayLeave s.held) self.old self.new result }
    {
        if self.begin() {
            self.file.fail(Change::CutTo { at })?;
            return Err(self.tally.fail(alloc));
        }
        self.file.cut(at)?;
        Ok(())
    }

    fn sync(&mut self, alloc: Global) -> Result<(), DeviceError>
        ensures listed { EndsAsListed self.old.tally result }
        ensures ok { is_listed self.old.tally ≡ false → IsOk result }
        ensures state { Goes self.old self.new (λ file. file ≡ file_of self.old.held.bytes)
            (λ file. file ≡ self.old.held) result }
        ensures durable { OnOk result (Only self.old.held.bytes (MayLeave self.new.held)) }
        ensures content { self.new.held.bytes ≡ self.old.held.bytes }
        ensures images { Narrows (MayLeave self.old.held) (MayLeave self.new.held) }
        ensures call { IsMemoryCall MayLeave (λ s. MayLeave s.held) self.old self.new result }
    {
        if self.begin() {
            return Err(self.tally.fail(alloc));
        }
        self.file.sync();
        Ok(())
    }
}
