ghost use Rattle.std.specs.Prelude.{◌≡◌, ℕ, map, option_map, IfOk, IfErr, OnOk, OnErr};
ghost use Rattle.disk_model.specs.Shelves.{AreNumbersOf};
ghost use Rattle.disk_model.specs.Slots.{empty_slot, stored_slot, put_failed, removed, remove_failed, left_slot, slot_at, file_at, with_files, no_files, SetsSlot, IsAt, IsGapFor, MayLeaveFiles, OnlyFiles};

use crate::piece::Piece;
use crate::slot::Slot;
use std::alloc::{AllocError, Global};
use std::marker::Model;

/// The numbered files of a shelf in memory, and what a crash may make of each.
#[derive(Drop)]
pub(crate) struct MemoryFiles {
    // By rising number. A number may have no file.
    slots: Vec<Slot>,
}

impl Model for MemoryFiles {
    ghost use Rattle.std.specs.Prelude.{List};
    ghost use Rattle.disk_model.specs.Slots.{AreRisingSlots};
    ghost use Rattle.disk_model.specs.declared.slot.Slot.{Slot};

    ghost Value = { List Slot };

    ghost view = { λ f. f.slots.items };

    ghost invariant = { λ f. AreRisingSlots f.slots.items };
}

impl MemoryFiles {
    ghost use Rattle.std.specs.Prelude.{[]};

    /// No file.
    pub(crate) fn new(alloc: Global) -> MemoryFiles
        ensures { result ≡ [] }
    {
        MemoryFiles {
            slots: Vec::new(alloc),
        }
    }

    /// A copy of the file with this number.
    pub(crate) fn get(&self, alloc: Global, number: u64) -> Result<Option<Vec<u8>>, AllocError>
        ensures { IfOk result (λ found. option_map (λ bytes. bytes.items) found ≡ file_at self.now number) }
    {
        match self.search(number) {
            Ok(place) => copy_of(alloc, &self.slots[place].file),
            Err(_) => Ok(None),
        }
    }

    /// The numbers of the files.
    pub(crate) fn numbers(&self, alloc: Global) -> Result<Vec<u64>, AllocError>
        ensures { IfOk result (λ numbers. AreNumbersOf numbers.items (file_at self.now)) }
    {
        let mut numbers = Vec::new(alloc);
        for i in 0..self.slots.len() {
            if self.slots[i].file.is_some() {
                numbers.push(self.slots[i].number)?;
            }
        }
        Ok(numbers)
    }

    /// Stores a file, or replaces it.
    pub(crate) fn put(&mut self, number: u64, bytes: Piece) -> Result<(), AllocError>
        ensures ok { OnOk result (SetsSlot number (stored_slot number bytes) self.old self.new) }
        ensures err { OnErr result (self.new ≡ self.old) }
    {
        let place = self.make(number)?;
        self.slots[place] = Slot {
            number,
            file: Some(bytes),
            doubt: None,
        };
        Ok(())
    }

    /// A put of these bytes failed.
    pub(crate) fn fail_put(&mut self, number: u64, bytes: Piece) -> Result<(), AllocError>
        ensures ok { OnOk result (SetsSlot number (put_failed bytes (slot_at number self.old)) self.old self.new) }
        ensures err { OnErr result (self.new ≡ self.old) }
    {
        let place = self.make(number)?;
        self.slots[place].fail_put(bytes);
        Ok(())
    }

    /// Removes a file. Until the next put, a crash may leave it.
    pub(crate) fn remove(&mut self, number: u64)
        ensures { SetsSlot number (removed (slot_at number self.old)) self.old self.new }
    {
        match self.search(number) {
            Ok(place) => self.slots[place].remove(),
            Err(_) => {}
        }
    }

    /// A remove failed.
    pub(crate) fn fail_remove(&mut self, number: u64)
        ensures { SetsSlot number (remove_failed (slot_at number self.old)) self.old self.new }
    {
        match self.search(number) {
            Ok(place) => self.slots[place].fail_remove(),
            Err(_) => {}
        }
    }

    /// Removes a file for good, and keeps nothing of it.
    pub(crate) fn erase(&mut self, number: u64)
        ensures { SetsSlot number (empty_slot number) self.old self.new }
    {
        match self.search(number) {
            Ok(place) => drop(self.slots.remove(place)),
            Err(_) => {}
        }
    }

    /// Crashes, and leaves of each file what is picked. It takes no memory.
    pub(crate) fn crash(&mut self, pick: u64)
        ensures { self.new ≡ map (left_slot pick) self.old }
    {
        crash_each(&mut self.slots, pick);
    }

    /// The place of a number, which gets an empty slot where it has none.
    fn make(&mut self, number: u64) -> Result<usize, AllocError>
        ensures place { IfOk result (IsAt self.new number) }
        ensures same { OnOk result ((n : ℕ) → slot_at n self.new ≡ slot_at n self.old) }
        ensures err { OnErr result (self.new ≡ self.old) }
    {
        match self.search(number) {
            Ok(place) => Ok(place),
            Err(place) => {
                self.slots.insert(place, Slot::empty(number))?;
                Ok(place)
            }
        }
    }

    /// Where the number is, or where it would go.
    fn search(&self, number: u64) -> Result<usize, usize>
        ensures found { IfOk result (IsAt self.now number) }
        ensures absent { IfErr result (IsGapFor self.now number) }
    {
        self.slots
            .binary_search_by_key(&number, |slot: &Slot| slot.number)
    }
}

fn copy_of(alloc: Global, file: &Option<Piece>) -> Result<Option<Vec<u8>>, AllocError>
    ensures { IfOk result (λ found. option_map (λ bytes. bytes.items) found ≡ file.now) }
{
    match file {
        None => Ok(None),
        Some(piece) => Ok(Some(Vec::from_slice(alloc, piece.as_bytes())?)),
    }
}

/// A crash leaves of each slot what is picked.
fn crash_each(slots: &mut Vec<Slot>, pick: u64)
    ensures { slots.new.items ≡ map (left_slot pick) slots.old.items }
{
    for i in 0..slots.len() {
        slots[i].crash(pick);
    }
}

/// These files. A crash leaves them as they are. Of two with one number the later counts.
pub(crate) fn files_of(alloc: Global, files: &[(u64, Vec<u8>)]) -> Result<MemoryFiles, AllocError>
    ensures content { IfOk result (λ all. (n : ℕ) → file_at all n ≡ with_files no_files files.now n) }
    ensures synced { IfOk result (λ all. OnlyFiles (file_at all) (MayLeaveFiles all)) }
{
    let mut all = MemoryFiles::new(alloc);
    for i in 0..files.len() {
        let bytes = Piece::copy_of(alloc, &files[i].1)?;
        all.put(files[i].0, bytes)?;
    }
    Ok(all)
}
