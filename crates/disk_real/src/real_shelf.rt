ghost use Rattle.std.specs.Prelude.{◌≡◌};

use crate::file_shelf::FileShelf;
use disk_model::{DeviceError, Shelf, SteadyShelf};
use std::alloc::Global;
use std::fs::File;
use std::marker::Model;
use std::rt::Files;

/// Where the files of a shelf are.
#[derive(Drop)]
pub(crate) enum ShelfKind<'a, R> {
    Files(FileShelf<'a, R>),
    Memory(SteadyShelf),
}

/// A shelf of a process: the files of a folder, or memory that is gone when the process ends. Contracts see the book of
/// its failures, and none of its files.
#[derive(Drop)]
pub struct RealShelf<'a, R> {
    pub(crate) kind: ShelfKind<'a, R>,
}

impl<'a, R> Model for RealShelf<'a, R> {
    ghost use Rattle.disk_model.specs.Books.{BookState};
    ghost use Rattle.disk_real.specs.Real.{shelf_book};

    ghost Value = { BookState };

    ghost view = { λ s. shelf_book s.kind };
}

impl<'a, R: Files<File = File> + AllocGlobal + Clone + Drop> RealShelf<'a, R> {
    /// How many units were drawn from its book.
    pub fn faults(&self) -> u64
        ensures { result ≡ self.now.count }
    {
        match &self.kind {
            ShelfKind::Files(shelf) => shelf.faults(),
            ShelfKind::Memory(_) => 0,
        }
    }
}

impl<'a, R: Files<File = File> + AllocGlobal + Clone + Drop> Shelf for RealShelf<'a, R> {
    ghost use Rattle.std.specs.Prelude.{false, None};

    ghost book = { λ s. s.name };

    ghost count = { λ s. s.count };

    ghost calls = { λ s. 0 };

    ghost tells = { λ s. false };

    ghost content = { λ s n. None };

    ghost tells_images = { λ s. false };

    ghost may_leave = { λ s c. ⊥ };

    ghost moment = { λ s. 0 };

    ghost left_since = { λ s t c. ⊥ };

    ghost own_image = { λ s told images. absurd Prim.cc };

    ghost counts_now = { λ s t c le none. none };

    ghost counts_earlier = { λ s t u c le none. none };

    ghost only_now = { λ s c none. none };

    fn put(&mut self, alloc: Global, number: u64, bytes: &[u8]) -> Result<(), DeviceError> {
        match &mut self.kind {
            ShelfKind::Files(shelf) => shelf.put(alloc, number, bytes),
            ShelfKind::Memory(shelf) => shelf.put(alloc, number, bytes),
        }
    }

    fn get(&mut self, alloc: Global, number: u64) -> Result<Option<Vec<u8>>, DeviceError> {
        match &mut self.kind {
            ShelfKind::Files(shelf) => shelf.get(alloc, number),
            ShelfKind::Memory(shelf) => shelf.get(alloc, number),
        }
    }

    fn remove(&mut self, alloc: Global, number: u64) -> Result<(), DeviceError> {
        match &mut self.kind {
            ShelfKind::Files(shelf) => shelf.remove(alloc, number),
            ShelfKind::Memory(shelf) => shelf.remove(alloc, number),
        }
    }

    fn list(&mut self, alloc: Global) -> Result<Vec<u64>, DeviceError> {
        match &mut self.kind {
            ShelfKind::Files(shelf) => shelf.list(alloc),
            ShelfKind::Memory(shelf) => shelf.list(alloc),
        }
    }
}
