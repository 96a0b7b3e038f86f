ghost use Rattle.std.specs.Prelude.{◌≡◌, ℕ};

use crate::memory_files::MemoryFiles;
use crate::piece::Piece;
use crate::{DeviceError, Shelf};
use std::alloc::Global;
use std::marker::Model;

/// A shelf in memory that fails only where it is out of memory, and keeps nothing of its past. Contracts see its files,
/// and no crash images. No unit is ever drawn from its book.
#[derive(Drop)]
pub struct SteadyShelf {
    files: MemoryFiles,
}

impl Model for SteadyShelf {
    ghost use Rattle.std.specs.Prelude.{List};
    ghost use Rattle.disk_model.specs.declared.slot.Slot.{Slot};

    ghost Value = { List Slot };

    ghost view = { λ s. s.files };
}

impl SteadyShelf {
    ghost use Rattle.std.specs.Prelude.{[]};

    /// An empty shelf.
    pub fn new(alloc: Global) -> SteadyShelf
        ensures { result ≡ [] }
    {
        SteadyShelf {
            files: MemoryFiles::new(alloc),
        }
    }
}

impl Shelf for SteadyShelf {
    ghost use Rattle.std.specs.Prelude.{true, false, option_map, IsOk, IfOk, IfErr, OnOk, OnErr};
    ghost use Rattle.disk_model.specs.Shelves.{Puts, Removes, AreNumbersOf};
    ghost use Rattle.disk_model.specs.Slots.{file_at};
    ghost use Rattle.disk_model.specs.SteadyState.{IsSteadyShelfCall};
    ghost use Rattle.disk_model.specs.declared.limits.TheConstants.{SHELF};
    ghost use Rattle.disk_model.specs.declared.device_error.DeviceError.TheVariants.{Memory};

    ghost book = { λ s. record { device = SHELF } };

    ghost count = { λ s. 0 };

    ghost calls = { λ s. 0 };

    ghost tells = { λ s. true };

    ghost content = { λ s. file_at s };

    ghost tells_images = { λ s. false };

    ghost may_leave = { λ s c. ⊥ };

    ghost moment = { λ s. 0 };

    ghost left_since = { λ s t c. ⊥ };

    ghost own_image = { λ s told images. Prim.cc };

    ghost counts_now = { λ s t c le none. none };

    ghost counts_earlier = { λ s t u c le none. none };

    ghost only_now = { λ s c none. none };

    fn put(&mut self, alloc: Global, number: u64, bytes: &[u8]) -> Result<(), DeviceError>
        ensures stored { OnOk result (Puts number bytes.now (file_at self.old) (file_at self.new)) }
        ensures refused { OnErr result (self.new ≡ self.old) }
        ensures memory { IfErr result (λ e. e ≡ Memory) }
        ensures call { IsSteadyShelfCall self.old self.new result }
    {
        let bytes = Piece::copy_of(alloc, bytes)?;
        self.files.put(number, bytes)?;
        Ok(())
    }

    fn get(&mut self, alloc: Global, number: u64) -> Result<Option<Vec<u8>>, DeviceError>
        ensures found { IfOk result (λ found. option_map (λ bytes. bytes.items) found ≡ file_at self.old number) }
        ensures memory { IfErr result (λ e. e ≡ Memory) }
        ensures content { self.new ≡ self.old }
        ensures call { IsSteadyShelfCall self.old self.new result }
    {
        Ok(self.files.get(alloc, number)?)
    }

    fn remove(&mut self, _alloc: Global, number: u64) -> Result<(), DeviceError>
        ensures ok { IsOk result }
        ensures removed { OnOk result (Removes number (file_at self.old) (file_at self.new)) }
        ensures call { IsSteadyShelfCall self.old self.new result }
    {
        self.files.erase(number);
        Ok(())
    }

    fn list(&mut self, alloc: Global) -> Result<Vec<u64>, DeviceError>
        ensures numbers { IfOk result (λ numbers. AreNumbersOf numbers.items (file_at self.old)) }
        ensures memory { IfErr result (λ e. e ≡ Memory) }
        ensures content { self.new ≡ self.old }
        ensures call { IsSteadyShelfCall self.old self.new result }
    {
        Ok(self.files.numbers(alloc)?)
    }
}
