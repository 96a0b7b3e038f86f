use crate::opening::open_or_make;
use std::alloc::{AllocError, Global};
use std::fs::{self, File, OpenFile};
use std::io::{self, ErrorKind};
use std::rt::Files;

/// A folder of the system by its path. It need not be there.
#[derive(Drop)]
pub(crate) struct Folder<'a, R> {
    rt: &'a R,
    path: String,
    // Whether the folder was made here, and its parent was not synced since.
    is_new: bool,
}

impl<'a, R: Files<File = File>> Folder<'a, R> {
    pub(crate) fn new(alloc: Global, rt: &'a R, path: &str) -> Result<Folder<'a, R>, AllocError> {
        Ok(Folder {
            rt,
            path: String::from_str(alloc, path)?,
            is_new: false,
        })
    }

    pub(crate) fn rt(&self) -> &'a R {
        self.rt
    }

    pub(crate) fn path(&self) -> &str {
        self.path.as_str()
    }

    /// The path of a file of this folder.
    pub(crate) fn path_of(&self, alloc: Global, name: &str) -> Result<String, AllocError> {
        let mut path = String::from_str(alloc, self.path.as_str())?;
        path.push('/')?;
        path.push_str(name)?;
        Ok(path)
    }

    /// Opens a file of this folder. Where it is absent it is made, and so is the folder, but not the folder's parent.
    pub(crate) fn make_file(&mut self, path: &str) -> io::Result<File> {
        match open_or_make(self.rt, path) {
            Ok(file) => Ok(file),
            Err(error) => {
                if error.kind() != ErrorKind::NotFound {
                    return Err(error);
                }
                fs::create_dir(self.rt, self.path.as_str())?;
                self.is_new = true;
                open_or_make(self.rt, path)
            }
        }
    }

    /// Syncs the folder: then the names of its files outlast a crash. A folder that was made here has a name of its own
    /// to keep, so its parent is synced, too.
    pub(crate) fn keep(&mut self) -> io::Result<()> {
        sync_folder(self.rt, self.path.as_str())?;
        if self.is_new {
            sync_folder(self.rt, parent_of(self.path.as_str()))?;
            self.is_new = false;
        }
        Ok(())
    }
}

/// A folder is synced as a file is.
fn sync_folder<R: Files<File = File>>(rt: &R, path: &str) -> io::Result<()> {
    File::open(rt, path)?.sync_all()
}

/// The folder in which this one lies.
fn parent_of(path: &str) -> &str {
    match path.trim_end_matches('/').rsplit_once('/') {
        Some(("", _)) => "/",
        Some((parent, _)) => parent,
        None => ".",
    }
}
