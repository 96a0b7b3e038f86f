ghost use Rattle.std.specs.Prelude.{◌≡◌, ℕ, ◌%◌, map, IfOk, ◌∷◌, [], ◌++◌};

use crate::limits::SHELF;
use crate::memory_files::{MemoryFiles, files_of};
use crate::past::Past;
use crate::piece::Piece;
use crate::tally::Tally;
use crate::{DeviceError, Shelf};
use std::alloc::{AllocError, Global};
use std::marker::Model;

/// A shelf in memory. Contracts see its files and its crash images: it keeps which files a crash may lose or bring
/// back.
///
/// The calls with the numbers of a list fail, and any other only if it is out of memory. A failed call changes no file.
/// The crash images after a put or remove of the list are as after an unfinished one. A call that ran out of memory
/// leaves all as it was. No crash comes within a call.
#[derive(Drop)]
pub struct MemoryShelf {
    tally: Tally,
    files: MemoryFiles,
    past: Past<MemoryFiles>,
}

impl Model for MemoryShelf {
    ghost use Rattle.std.specs.Prelude.{List};
    ghost use Rattle.disk_model.specs.MemoryState.{MemoryState};
    ghost use Rattle.disk_model.specs.declared.slot.Slot.{Slot};

    ghost Value = { MemoryState (List Slot) };

    ghost view = { λ s. record { tally = s.tally; held = s.files; past = s.past } };
}

impl MemoryShelf {
    ghost use Rattle.disk_model.specs.MemoryState.{begun};
    ghost use Rattle.disk_model.specs.Tallies.{is_listed, restarted};
    ghost use Rattle.disk_model.specs.Slots.{left_slot, slot_at, file_at, picked_by, with_files, no_files, MayLeaveFiles, OnlyFiles};
    ghost use Rattle.disk_model.specs.declared.limits.TheConstants.{SHELF};

    /// A shelf with these files, which a crash leaves as they are. Of two with one number the later counts. The calls
    /// with the numbers in `failing` fail, counted from 0 over all calls. It may answer `AllocError` at any time.
    pub fn new(
        alloc: Global,
        files: Vec<(u64, Vec<u8>)>,
        failing: Vec<u64>,
    ) -> Result<MemoryShelf, AllocError>
        ensures content { IfOk result (λ shelf. (n : ℕ) →
            file_at shelf.held n ≡ with_files no_files files.items n) }
        ensures synced { IfOk result (λ shelf. OnlyFiles (file_at shelf.held) (MayLeaveFiles shelf.held)) }
        ensures past { IfOk result (λ shelf. shelf.past ≡ []) }
        ensures failing { IfOk result (λ shelf. shelf.tally.failing ≡ failing.items) }
        ensures calls { IfOk result (λ shelf. shelf.tally.calls ≡ 0) }
        ensures device { IfOk result (λ shelf. shelf.tally.book.name.device ≡ SHELF) }
        ensures faults { IfOk result (λ shelf. shelf.tally.book.count ≡ 0) }
    {
        Ok(MemoryShelf {
            tally: Tally::new(alloc, SHELF, failing)?,
            files: files_of(alloc, &files)?,
            past: Past::new(),
        })
    }

    /// How many calls were made.
    pub fn calls(&self) -> u64
        ensures { result ≡ self.now.tally.calls }
    {
        self.tally.calls()
    }

    /// How many units were drawn from its book.
    pub fn faults(&self) -> u64
        ensures { result ≡ self.now.tally.book.count }
    {
        self.tally.faults()
    }

    /// The shelf after a crash now, which leaves one of its crash images. By `pick mod 4` there is left:
    ///
    /// | pick | of a file whose put failed | of a file that was or was to be removed |
    /// |---|---|---|
    /// | 0 | nothing | the file |
    /// | 1 | the bytes of the put | nothing |
    /// | 2 | their first half | nothing |
    /// | 3 | as many bytes A5 | nothing |
    ///
    /// Other files stay. A crash after it leaves the same. No call is to fail, and calls count from 0. The book goes
    /// on. It takes no memory.
    pub fn crash(mut self, pick: u64) -> MemoryShelf
        ensures files { result.held ≡ map (left_slot pick) self.held }
        ensures content { (n : ℕ) → file_at result.held n ≡
            picked_by (slot_at n self.held).doubt (pick % 4) (slot_at n self.held).file }
        ensures image { MayLeaveFiles self.held (file_at result.held) }
        ensures synced { OnlyFiles (file_at result.held) (MayLeaveFiles result.held) }
        ensures tally { result.tally ≡ restarted self.tally }
        ensures past { result.past ≡ self.past ++ self.held ∷ [] }
    {
        self.past.push(&self.files);
        self.files.crash(pick);
        self.tally.restart();
        self
    }

    /// Counts a call, and answers whether it is to fail.
    fn begin(&mut self) -> bool
        ensures listed { result ≡ is_listed self.old.tally }
        ensures state { self.new ≡ begun self.old }
    {
        self.past.push(&self.files);
        self.tally.begin()
    }
}

impl Shelf for MemoryShelf {
    ghost use Rattle.std.specs.Prelude.{true, length, option_map, OnOk, OnErr};
    ghost use Rattle.disk_model.specs.Crashes.{Follows, Narrows, IsStepOf};
    ghost use Rattle.disk_model.specs.Pasts.{LeftSince};
    ghost use Rattle.disk_model.specs.PastLaws.{since-earlier, since-now};
    ghost use Rattle.disk_model.specs.Shelves.{Puts, PutsOrNot, Removes, RemovesOrNot, AreNumbersOf};
    ghost use Rattle.disk_model.specs.MemoryState.{Goes, IsMemoryCall};
    ghost use Rattle.disk_model.specs.Tallies.{FailsAsListed, ReadsAsListed, EndsAsListed};
    ghost use Rattle.disk_model.specs.Slots.{stored_slot, put_failed, removed, remove_failed, slot_at, file_at, MayLeaveFiles, SetsSlot};
    ghost use Rattle.disk_model.specs.SlotLaws.{own-image};
    ghost use Rattle.std.proofs.Common.{inl};

    ghost book = { λ s. s.tally.book.name };

    ghost count = { λ s. s.tally.book.count };

    ghost calls = { λ s. s.tally.calls };

    ghost tells = { λ s. true };

    ghost content = { λ s. file_at s.held };

    ghost tells_images = { λ s. true };

    ghost may_leave = { λ s c. MayLeaveFiles s.held c };

    ghost moment = { λ s. length s.past };

    ghost left_since = { λ s t c. LeftSince MayLeaveFiles s.past s.held t c };

    ghost own_image = { λ s told images. own-image s.held };

    ghost counts_now = { λ s t c earlier now. inl now };

    ghost counts_earlier = { λ s t u c earlier left. since-earlier MayLeaveFiles s.past s.held t u c earlier left };

    ghost only_now = { λ s c left. since-now MayLeaveFiles s.past s.held c left };

    fn put(&mut self, alloc: Global, number: u64, bytes: &[u8]) -> Result<(), DeviceError>
        ensures listed { FailsAsListed self.old.tally result }
        ensures state { Goes self.old self.new (SetsSlot number (stored_slot number bytes.now) self.old.held)
            (SetsSlot number (put_failed bytes.now (slot_at number self.old.held)) self.old.held) result }
        ensures stored { OnOk result (Puts number bytes.now (file_at self.old.held) (file_at self.new.held)) }
        ensures refused { OnErr result (PutsOrNot number (file_at self.old.held) (file_at self.new.held)) }
        ensures same { OnErr result ((n : ℕ) → file_at self.new.held n ≡ file_at self.old.held n) }
        ensures durable { OnOk result
            (Follows (Puts number bytes.now) (MayLeaveFiles self.old.held) (MayLeaveFiles self.new.held)) }
        ensures images { Follows (PutsOrNot number) (MayLeaveFiles self.old.held) (MayLeaveFiles self.new.held) }
        ensures call { IsMemoryCall MayLeaveFiles (λ _. IsStepOf (PutsOrNot number) (MayLeaveFiles self.old.held))
            self.old self.new result }
    {
        let listed = self.begin();
        let bytes = Piece::copy_of(alloc, bytes)?;
        if listed {
            self.files.fail_put(number, bytes)?;
            return Err(self.tally.fail(alloc));
        }
        self.files.put(number, bytes)?;
        Ok(())
    }

    fn get(&mut self, alloc: Global, number: u64) -> Result<Option<Vec<u8>>, DeviceError>
        ensures listed { ReadsAsListed self.old.tally result }
        ensures state { Goes self.old self.new (λ files. files ≡ self.old.held)
            (λ files. files ≡ self.old.held) result }
        ensures found { IfOk result (λ found.
            option_map (λ bytes. bytes.items) found ≡ file_at self.old.held number) }
        ensures content { file_at self.new.held ≡ file_at self.old.held }
        ensures images { Narrows (MayLeaveFiles self.old.held) (MayLeaveFiles self.new.held) }
        ensures call { IsMemoryCall MayLeaveFiles (λ s. MayLeaveFiles s.held) self.old self.new result }
    {
        if self.begin() {
            return Err(self.tally.fail(alloc));
        }
        Ok(self.files.get(alloc, number)?)
    }

    fn remove(&mut self, alloc: Global, number: u64) -> Result<(), DeviceError>
        ensures listed { EndsAsListed self.old.tally result }
        ensures state { Goes self.old self.new
            (SetsSlot number (removed (slot_at number self.old.held)) self.old.held)
            (SetsSlot number (remove_failed (slot_at number self.old.held)) self.old.held) result }
        ensures removed { OnOk result (Removes number (file_at self.old.held) (file_at self.new.held)) }
        ensures refused { OnErr result (RemovesOrNot number (file_at self.old.held) (file_at self.new.held)) }
        ensures same { OnErr result ((n : ℕ) → file_at self.new.held n ≡ file_at self.old.held n) }
        ensures images { Follows (RemovesOrNot number) (MayLeaveFiles self.old.held) (MayLeaveFiles self.new.held) }
        ensures call { IsMemoryCall MayLeaveFiles (λ s. MayLeaveFiles s.held) self.old self.new result }
    {
        if self.begin() {
            self.files.fail_remove(number);
            return Err(self.tally.fail(alloc));
        }
        self.files.remove(number);
        Ok(())
    }

    fn list(&mut self, alloc: Global) -> Result<Vec<u64>, DeviceError>
        ensures listed { ReadsAsListed self.old.tally result }
        ensures state { Goes self.old self.new (λ files. files ≡ self.old.held)
            (λ files. files ≡ self.old.held) result }
        ensures numbers { IfOk result (λ numbers. AreNumbersOf numbers.items (file_at self.old.held)) }
        ensures content { file_at self.new.held ≡ file_at self.old.held }
        ensures images { Narrows (MayLeaveFiles self.old.held) (MayLeaveFiles self.new.held) }
        ensures call { IsMemoryCall MayLeaveFiles (λ s. MayLeaveFiles s.held) self.old self.new result }
    {
        if self.begin() {
            return Err(self.tally.fail(alloc));
        }
        Ok(self.files.numbers(alloc)?)
    }
}
