use std::fs::{self, File};
use std::io::{self, ErrorKind};
use std::rt::Files;

/// A file, as far as it is known.
#[derive(Drop)]
pub(crate) enum Opened {
    /// No call has asked for it yet.
    Unknown,
    /// It is not there, so it reads as empty.
    Absent,
    There(File),
}

/// Opens the file, if it is there.
pub(crate) fn open_present<R: Files<File = File>>(rt: &R, path: &str) -> io::Result<Opened> {
    match File::options().read(true).write(true).open(rt, path) {
        Ok(file) => Ok(Opened::There(file)),
        Err(error) => {
            if error.kind() == ErrorKind::NotFound {
                return Ok(Opened::Absent);
            }
            Err(error)
        }
    }
}

/// Opens the file, and makes it if it is absent.
pub(crate) fn open_or_make<R: Files<File = File>>(rt: &R, path: &str) -> io::Result<File> {
    let mut options = File::options();
    options.read(true).write(true).create(true);
    options.open(rt, path)
}

/// Whether this path is a folder's, or nothing stands there, so that a folder can be made.
pub fn can_be_folder<R: Files<File = File>>(rt: &R, path: &str) -> bool {
    match fs::metadata(rt, path) {
        Ok(found) => found.is_dir(),
        Err(error) => error.kind() == ErrorKind::NotFound,
    }
}
