//! A strip and a shelf in a folder that each test makes.
use crate::names::{MANIFEST_NAMES, log_name, shelf_name};
use crate::{FileShelf, FileStrip, Holding};
use disk_model::{DeviceError, Shelf, Strip};
use std::path::AsPath;
use std::process::Abort;
use std::rt::Files;
use std::test::Fail;
use std::{env, fs, process};

/// A path at which nothing stands yet.
fn unused_path(rt: &HostRuntime, test: &str) -> Result<String, Fail> {
    let alloc = rt.alloc();
    let id = process::id(rt.process());
    let name = format!(in alloc; "remixdb_{test}_{id}")?;
    let path = env::temp_dir(rt)?.join(alloc, name.as_str())?;
    let path = String::from_str(alloc, path.as_path().path_text())?;
    if fs::exists(rt, path.as_str())? {
        fs::remove_dir_all(rt, path.as_str())?;
    }
    Ok(path)
}

/// How a call ended.
fn ended(answer: Result<(), DeviceError>) -> &'static str {
    match answer {
        Ok(()) => "ok",
        Err(DeviceError::Fault(unit)) if unit.device() == 3 => "fault",
        Err(_) => "other",
    }
}

/// How the length was answered.
fn told(len: Result<u64, DeviceError>) -> &'static str {
    match len {
        Ok(_len) => "ok",
        Err(error) => ended(Err(error)),
    }
}

fn strip_in<'a>(rt: &'a HostRuntime, folder: &str) -> Result<FileStrip<'a, HostRuntime>, Fail> {
    Ok(FileStrip::new(rt.alloc(), rt, folder, "log3", 3, Holding::Shared)?)
}

/// An absent strip is empty, and nothing is made for it.
fn see_absent(rt: &HostRuntime, folder: &str) -> Result<bool, Fail> {
    let alloc = rt.alloc();
    let mut strip = strip_in(rt, folder)?;
    let len = strip.len(alloc)?;
    let count = strip.read(alloc, 0, &mut [0; 8])?;
    strip.sync(alloc)?;
    Ok(len == 0 && count == 0 && !fs::exists(rt, folder)?)
}

fn write_and_cut(rt: &HostRuntime, folder: &str) -> Result<(), Fail> {
    let alloc = rt.alloc();
    let mut strip = strip_in(rt, folder)?;
    strip.write_at(alloc, 0, b"abcdef")?;
    strip.write_at(alloc, 6, b"g")?;
    strip.sync(alloc)?;
    strip.cut(alloc, 5)?;
    strip.sync(alloc)?;
    Ok(())
}

#[test]
fn a_strip_keeps_its_bytes_in_a_file(rt: HostRuntime) -> Result<(), Fail> {
    let alloc = rt.alloc();
    let folder = unused_path(&rt, "strip")?;
    assert!(rt; see_absent(&rt, folder.as_str())?);
    write_and_cut(&rt, folder.as_str())?;
    let mut strip = strip_in(&rt, folder.as_str())?;
    let mut room = [0; 8];
    assert_eq!(rt; strip.len(alloc)?, 5);
    assert_eq!(rt; strip.read(alloc, 2, &mut room)?, 3);
    assert_eq!(rt; &room[..3], b"cde".as_slice());
    fs::remove_dir_all(&rt, folder.as_str())?;
    Ok(())
}

#[test]
fn a_file_that_is_held_alone_is_a_fault_to_others(rt: HostRuntime) -> Result<(), Fail> {
    let alloc = rt.alloc();
    let folder = unused_path(&rt, "lock")?;
    let mut first = FileStrip::new(alloc, &rt, folder.as_str(), "log3", 3, Holding::Alone)?;
    let mut second = FileStrip::new(alloc, &rt, folder.as_str(), "log3", 3, Holding::Alone)?;
    first.write_at(alloc, 0, b"a")?;
    assert_eq!(rt; told(second.len(alloc)), "fault");
    assert_eq!(rt; ended(second.write_at(alloc, 0, b"b")), "fault");
    drop(first);
    assert_eq!(rt; second.len(alloc)?, 1);
    fs::remove_dir_all(&rt, folder.as_str())?;
    Ok(())
}

#[test]
fn a_folder_that_cannot_be_is_a_fault(rt: HostRuntime) -> Result<(), Fail> {
    let alloc = rt.alloc();
    let absent = unused_path(&rt, "absent")?;
    let below = format!(in alloc; "{absent}/below")?;
    let mut strip = FileStrip::new(alloc, &rt, below.as_str(), "log3", 3, Holding::Shared)?;
    assert_eq!(rt; told(strip.len(alloc)), "ok");
    assert_eq!(rt; ended(strip.write_at(alloc, 0, b"a")), "fault");
    fs::write(&rt, absent.as_str(), b"a file")?;
    let mut strip = FileStrip::new(alloc, &rt, absent.as_str(), "log3", 3, Holding::Shared)?;
    assert_eq!(rt; told(strip.len(alloc)), "fault");
    fs::remove_file(&rt, absent.as_str())?;
    Ok(())
}

/// An absent shelf has no file, and nothing is made for it.
fn see_no_files(rt: &HostRuntime, folder: &str) -> Result<bool, Fail> {
    let alloc = rt.alloc();
    let mut shelf = FileShelf::new(alloc, rt, folder)?;
    let found = shelf.get(alloc, 7)?;
    let numbers = shelf.list(alloc)?;
    Ok(found.is_none() && numbers.is_empty() && !fs::exists(rt, folder)?)
}

fn put_three(rt: &HostRuntime, folder: &str) -> Result<(), Fail> {
    let alloc = rt.alloc();
    let mut shelf = FileShelf::new(alloc, rt, folder)?;
    shelf.put(alloc, 12, b"the longer one")?;
    shelf.put(alloc, 12, b"twelve")?;
    shelf.put(alloc, 7, b"seven")?;
    shelf.put(alloc, u64::MAX, b"")?;
    shelf.remove(alloc, 99)?;
    Ok(())
}

/// Whether the shelf has these bytes under the number.
fn has(rt: &HostRuntime, folder: &str, number: u64, bytes: &[u8]) -> Result<bool, Fail> {
    let alloc = rt.alloc();
    let mut shelf = FileShelf::new(alloc, rt, folder)?;
    match shelf.get(alloc, number)? {
        Some(found) => Ok(found.as_slice() == bytes),
        None => Ok(false),
    }
}

#[test]
fn a_shelf_keeps_its_files_in_a_folder(rt: HostRuntime) -> Result<(), Fail> {
    let alloc = rt.alloc();
    let folder = unused_path(&rt, "shelf")?;
    assert!(rt; see_no_files(&rt, folder.as_str())?);
    put_three(&rt, folder.as_str())?;
    assert!(rt; has(&rt, folder.as_str(), 12, b"twelve")?);
    assert!(rt; has(&rt, folder.as_str(), u64::MAX, b"")?);
    let other = format!(in alloc; "{folder}/t12")?;
    fs::write(&rt, other.as_str(), b"none of the shelf's")?;
    let mut shelf = FileShelf::new(alloc, &rt, folder.as_str())?;
    shelf.remove(alloc, 12)?;
    assert_eq!(rt; shelf.list(alloc)?.as_slice(), [7, u64::MAX].as_slice());
    fs::remove_dir_all(&rt, folder.as_str())?;
    Ok(())
}

#[test]
fn files_have_these_names(rt: HostRuntime) -> Result<(), Fail> {
    let alloc = rt.alloc();
    assert_eq!(rt; log_name(alloc, 5)?.as_str(), "log5");
    assert_eq!(rt; MANIFEST_NAMES[0], "man0");
    assert_eq!(rt; MANIFEST_NAMES[1], "man1");
    assert_eq!(rt; shelf_name(alloc, 12)?.as_str(), "t00000000000000000012");
    Ok(())
}
