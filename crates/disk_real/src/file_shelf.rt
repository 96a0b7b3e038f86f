ghost use Rattle.std.specs.Prelude.{◌≡◌, ◌≤◌, IfOk};
ghost use Rattle.disk_model.specs.Causes.{CauseOf};
ghost use Rattle.disk_model.specs.declared.limits.TheConstants.{SHELF};

use crate::folder::Folder;
use crate::names::{shelf_name, shelf_number};
use crate::reading::read_full_at;
use disk_model::{DeviceError, FaultBook, SHELF, Shelf};
use std::alloc::{AllocError, Global};
use std::fs::{self, File, OpenFile};
use std::io::{self, ErrorKind};
use std::marker::Model;
use std::os::unix::fs::FileExt;
use std::rt::Files;

/// The numbered files of a folder as a shelf. Contracts see the book of its failures, and none of its files.
///
/// An absent folder has no files; the first put makes it. A put that succeeds has synced the file and its name.
/// Files of other names are left alone.
#[derive(Drop)]
pub struct FileShelf<'a, R> {
    folder: Folder<'a, R>,
    book: FaultBook,
}

impl<'a, R> Model for FileShelf<'a, R> {
    ghost use Rattle.disk_model.specs.Books.{BookState};

    ghost Value = { BookState };

    ghost view = { λ s. s.book };
}

impl<'a, R: Files<File = File> + AllocGlobal + Clone + Drop> FileShelf<'a, R> {
    /// The shelf in this folder. No call of the system is made before one needs a file.
    pub fn new(alloc: Global, rt: &'a R, folder: &str) -> Result<FileShelf<'a, R>, AllocError>
        ensures device { IfOk result (λ shelf. shelf.name.device ≡ SHELF) }
        ensures fresh { IfOk result (λ shelf. shelf.count ≡ 0) }
    {
        Ok(FileShelf {
            folder: Folder::new(alloc, rt, folder)?,
            book: FaultBook::new(alloc, SHELF)?,
        })
    }

    /// How many units were drawn from its book.
    pub fn faults(&self) -> u64
        ensures { result ≡ self.now.count }
    {
        self.book.count()
    }

    fn store(&mut self, alloc: Global, number: u64, bytes: &[u8]) -> io::Result<()>
        ensures book { self.new ≡ self.old }
    {
        let path = self
            .folder
            .path_of(alloc, shelf_name(alloc, number)?.as_str())?;
        let file = self.folder.make_file(path.as_str())?;
        file.set_len(0)?;
        file.write_all_at(bytes, 0)?;
        file.sync_data()?;
        self.folder.keep()
    }

    fn load(&self, alloc: Global, number: u64) -> io::Result<Option<Vec<u8>>> {
        let path = self
            .folder
            .path_of(alloc, shelf_name(alloc, number)?.as_str())?;
        match File::open(self.folder.rt(), path.as_str()) {
            Ok(file) => Ok(Some(read_whole(alloc, &file)?)),
            Err(error) => {
                if error.kind() == ErrorKind::NotFound {
                    return Ok(None);
                }
                Err(error)
            }
        }
    }

    fn erase(&self, alloc: Global, number: u64) -> io::Result<()> {
        let path = self
            .folder
            .path_of(alloc, shelf_name(alloc, number)?.as_str())?;
        match fs::remove_file(self.folder.rt(), path.as_str()) {
            Ok(()) => Ok(()),
            Err(error) => {
                if error.kind() == ErrorKind::NotFound {
                    return Ok(());
                }
                Err(error)
            }
        }
    }

    fn numbers(&self, alloc: Global) -> io::Result<Vec<u64>> {
        let mut numbers = Vec::new(alloc);
        let entries = match fs::read_dir(self.folder.rt(), self.folder.path()) {
            Ok(entries) => entries,
            Err(error) => {
                if error.kind() == ErrorKind::NotFound {
                    return Ok(numbers);
                }
                return Err(error);
            }
        };
        for entry in entries {
            match entry {
                Ok(entry) => {
                    if let Some(number) = shelf_number(entry.file_name()) {
                        numbers.push(number)?;
                    }
                }
                Err(error) => {
                    // A name that is no text is none of ours.
                    if error.kind() != ErrorKind::InvalidFilename {
                        return Err(error);
                    }
                }
            }
        }
        numbers.sort_unstable();
        Ok(numbers)
    }
}

impl<'a, R: Files<File = File> + AllocGlobal + Clone + Drop> Shelf for FileShelf<'a, R> {
    ghost use Rattle.std.specs.Prelude.{false, None};

    ghost book = { λ s. s.name };

    ghost count = { λ s. s.count };

    ghost calls = { λ s. 0 };

    ghost tells = { λ s. false };

    ghost content = { λ s n. None };

    ghost tells_images = { λ s. false };

    ghost may_leave = { λ s c. ⊥ };

    ghost moment = { λ s. 0 };

    ghost left_since = { λ s t c. ⊥ };

    ghost own_image = { λ s told images. absurd Prim.cc };

    ghost counts_now = { λ s t c le none. none };

    ghost counts_earlier = { λ s t u c le none. none };

    ghost only_now = { λ s c none. none };

    fn put(&mut self, alloc: Global, number: u64, bytes: &[u8]) -> Result<(), DeviceError> {
        match self.store(alloc, number, bytes) {
            Ok(()) => Ok(()),
            Err(error) => Err(failed(&mut self.book, alloc, &error)),
        }
    }

    fn get(&mut self, alloc: Global, number: u64) -> Result<Option<Vec<u8>>, DeviceError> {
        match self.load(alloc, number) {
            Ok(found) => Ok(found),
            Err(error) => Err(failed(&mut self.book, alloc, &error)),
        }
    }

    fn remove(&mut self, alloc: Global, number: u64) -> Result<(), DeviceError> {
        match self.erase(alloc, number) {
            Ok(()) => Ok(()),
            Err(error) => Err(failed(&mut self.book, alloc, &error)),
        }
    }

    fn list(&mut self, alloc: Global) -> Result<Vec<u64>, DeviceError> {
        match self.numbers(alloc) {
            Ok(numbers) => Ok(numbers),
            Err(error) => Err(failed(&mut self.book, alloc, &error)),
        }
    }
}

/// What a failed call answers. Out of memory is no fault of the device.
fn failed(book: &mut FaultBook, alloc: Global, error: &io::Error) -> DeviceError
    ensures cause { CauseOf book.old.name book.old.count book.new.count result }
    ensures later { book.old.count ≤ book.new.count }
    ensures name { book.new.name ≡ book.old.name }
{
    match error.kind() {
        ErrorKind::OutOfMemory => DeviceError::Memory,
        _ => book.fail(alloc),
    }
}

/// All bytes of a file, of which each is read once.
fn read_whole(alloc: Global, file: &File) -> io::Result<Vec<u8>> {
    let len = file.metadata()?.len();
    let mut bytes = vec![in alloc; 0; len as usize]?;
    let count = read_full_at(file, 0, bytes.as_mut_slice())?;
    bytes.truncate(count);
    Ok(bytes)
}
