ghost use Rattle.std.specs.Prelude.{◌≡◌, ◌≤◌, ◌<◌, ◌+◌, ◌^◌, IfOk, length, true};
ghost use Rattle.disk_model.specs.declared.limits.TheConstants.{DEVICE_MAX};

use crate::folder::Folder;
use crate::holding::Holding;
use crate::opening::{Opened, open_present};
use crate::reading::read_full_at;
use disk_model::{DeviceError, FaultBook, Strip};
use std::alloc::{AllocError, Global};
use std::fs::{File, OpenFile};
use std::io::{self, ErrorKind};
use std::marker::Model;
use std::os::unix::fs::FileExt;
use std::rt::Files;

/// A file of a folder as a strip. Contracts see the book of its failures, and none of its bytes.
///
/// An absent file reads as empty. The first write makes it, with its folder. The first sync of the file syncs the
/// folder, too, for the file may be new. One handle is kept open. A write is one `pwrite` where the system takes it
/// whole, a sync one `fdatasync`. Calls that a signal interrupts go on.
#[derive(Drop)]
pub struct FileStrip<'a, R> {
    folder: Folder<'a, R>,
    path: String,
    opened: Opened,
    // Whether the folder was synced since the file was opened.
    named: bool,
    holding: Holding,
    book: FaultBook,
}

impl<'a, R> Model for FileStrip<'a, R> {
    ghost use Rattle.disk_model.specs.Books.{BookState};

    ghost Value = { BookState };

    ghost view = { λ s. s.book };
}

/// Takes the lock of a file that no other program may write meanwhile.
fn lock(file: &File) -> io::Result<()> {
    match file.try_lock() {
        Ok(()) => Ok(()),
        Err(_) => Err(io::Error::from(ErrorKind::WouldBlock)),
    }
}

impl<'a, R: Files<File = File>> FileStrip<'a, R> {
    /// The strip that is this file of the folder. No call of the system is made before one needs the file.
    ///
    /// A strip that holds its file alone locks it when it opens or makes it: while another program holds it, each
    /// call that needs the file fails.
    pub fn new(
        alloc: Global,
        rt: &'a R,
        folder: &str,
        name: &str,
        device: u8,
        holding: Holding,
    ) -> Result<FileStrip<'a, R>, AllocError>
        requires { device ≤ DEVICE_MAX }
        ensures device { IfOk result (λ strip. strip.name.device ≡ device) }
        ensures fresh { IfOk result (λ strip. strip.count ≡ 0) }
    {
        let folder = Folder::new(alloc, rt, folder)?;
        Ok(FileStrip {
            path: folder.path_of(alloc, name)?,
            folder,
            opened: Opened::Unknown,
            named: false,
            holding,
            book: FaultBook::new(alloc, device)?,
        })
    }

    /// How many units were drawn from its book.
    pub fn faults(&self) -> u64
        ensures { result ≡ self.now.count }
    {
        self.book.count()
    }

    /// Opens the file, if it is there and was not opened before.
    fn open(&mut self) -> io::Result<()>
        ensures book { self.new ≡ self.old }
    {
        match self.opened {
            Opened::Unknown => {
                let opened = open_present(self.folder.rt(), self.path.as_str())?;
                if let Opened::There(file) = &opened
                    && self.holding.is_alone()
                {
                    lock(file)?;
                }
                self.opened = opened;
                Ok(())
            }
            _ => Ok(()),
        }
    }
}

impl<'a, R: Files<File = File>> FileStrip<'a, R> {
    fn length(&mut self) -> io::Result<u64>
        ensures book { self.new ≡ self.old }
    {
        self.open()?;
        match &self.opened {
            Opened::There(file) => Ok(file.metadata()?.len()),
            _ => Ok(0),
        }
    }

    fn read_at(&mut self, at: u64, into: &mut [u8]) -> io::Result<usize>
        ensures book { self.new ≡ self.old }
        ensures fits { IfOk result (λ count. count ≤ length into.old) }
    {
        self.open()?;
        match &self.opened {
            Opened::There(file) => read_full_at(file, at, into),
            _ => Ok(0),
        }
    }

    /// Opens the file, and makes it where it is absent.
    fn make(&mut self) -> io::Result<()>
        ensures book { self.new ≡ self.old }
    {
        self.open()?;
        match self.opened {
            Opened::There(_) => Ok(()),
            _ => {
                let file = self.folder.make_file(self.path.as_str())?;
                if self.holding.is_alone() {
                    lock(&file)?;
                }
                self.opened = Opened::There(file);
                Ok(())
            }
        }
    }

    fn put(&mut self, at: u64, bytes: &[u8]) -> io::Result<()>
        ensures book { self.new ≡ self.old }
    {
        self.make()?;
        match &self.opened {
            Opened::There(file) => file.write_all_at(bytes, at),
            _ => Ok(()),
        }
    }

    fn shorten(&mut self, at: u64) -> io::Result<()>
        ensures book { self.new ≡ self.old }
    {
        self.open()?;
        match &self.opened {
            Opened::There(file) => file.set_len(at),
            _ => Ok(()),
        }
    }

    /// Keeps the file's bytes, and the first time its name. An absent file has nothing to keep.
    fn keep(&mut self) -> io::Result<()>
        ensures book { self.new ≡ self.old }
    {
        self.open()?;
        if let Opened::There(file) = &self.opened {
            file.sync_data()?;
            if !self.named {
                self.folder.keep()?;
                self.named = true;
            }
        }
        Ok(())
    }
}

/// Whether this many bytes from this place on end below 2^63, as lengths have to.
fn ends_short(at: u64, count: usize) -> bool
    ensures { result ≡ true → at + count < 2 ^ 63 }
{
    match at.checked_add(count as u64) {
        Some(end) => end < 1 << 63,
        None => false,
    }
}

impl<'a, R: Files<File = File>> Strip for FileStrip<'a, R> {
    ghost use Rattle.std.specs.Prelude.{true, false, []};

    ghost book = { λ s. s.name };

    ghost count = { λ s. s.count };

    ghost calls = { λ s. 0 };

    ghost tells = { λ s. false };

    ghost content = { λ s. [] };

    ghost tells_images = { λ s. false };

    ghost may_leave = { λ s c. ⊥ };

    ghost moment = { λ s. 0 };

    ghost left_since = { λ s t c. ⊥ };

    ghost own_image = { λ s told images. absurd Prim.cc };

    ghost counts_now = { λ s t c le none. none };

    ghost counts_earlier = { λ s t u c le none. none };

    ghost only_now = { λ s c none. none };

    fn len(&mut self, alloc: Global) -> Result<u64, DeviceError> {
        match self.length() {
            Ok(len) if len < 1 << 63 => Ok(len),
            _ => Err(self.book.fail(alloc)),
        }
    }

    fn read(&mut self, alloc: Global, at: u64, into: &mut [u8]) -> Result<usize, DeviceError> {
        match self.read_at(at, into) {
            Ok(count) => Ok(count),
            Err(_) => Err(self.book.fail(alloc)),
        }
    }

    fn write_at(&mut self, alloc: Global, at: u64, bytes: &[u8]) -> Result<(), DeviceError> {
        if !ends_short(at, bytes.len()) {
            return Err(self.book.fail(alloc));
        }
        match self.put(at, bytes) {
            Ok(()) => Ok(()),
            Err(_) => Err(self.book.fail(alloc)),
        }
    }

    fn cut(&mut self, alloc: Global, at: u64) -> Result<(), DeviceError> {
        match self.shorten(at) {
            Ok(()) => Ok(()),
            Err(_) => Err(self.book.fail(alloc)),
        }
    }

    fn sync(&mut self, alloc: Global) -> Result<(), DeviceError> {
        match self.keep() {
            Ok(()) => Ok(()),
            Err(_) => Err(self.book.fail(alloc)),
        }
    }
}
