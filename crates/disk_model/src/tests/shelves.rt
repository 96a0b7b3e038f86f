//! Shelves: what they hold, which of their calls fail, and what a crash leaves.
use super::{is_end, way};
use crate::{DeviceError, MemoryShelf, Shelf, SteadyShelf};
use std::alloc::Global;
use std::process::Abort;
use std::test::Fail;

type Files<'a> = &'a [(u64, &'a [u8])];

#[derive(Clone, Copy)]
enum Call<'a> {
    Put(u64, &'a [u8]),
    Remove(u64),
    Get(u64),
    List,
}

fn shelf_of(alloc: Global, files: Files<'_>, failing: &[u64]) -> Result<MemoryShelf, Fail> {
    let mut owned = Vec::new(alloc);
    for (number, bytes) in files {
        owned.push((*number, Vec::from_slice(alloc, bytes)?))?;
    }
    Ok(MemoryShelf::new(alloc, owned, Vec::from_slice(alloc, failing)?)?)
}

// Makes a call, and answers how it ended.
fn ended(alloc: Global, shelf: &mut MemoryShelf, call: Call<'_>) -> &'static str {
    match call {
        Call::Put(number, bytes) => way(shelf.put(alloc, number, bytes)),
        Call::Remove(number) => way(shelf.remove(alloc, number)),
        Call::Get(number) => way(shelf.get(alloc, number)),
        Call::List => way(shelf.list(alloc)),
    }
}

fn put<H: Shelf>(
    alloc: Global,
    shelf: &mut H,
    number: u64,
    bytes: &[u8],
) -> Result<(), DeviceError> {
    shelf.put(alloc, number, bytes)
}

fn remove<H: Shelf>(alloc: Global, shelf: &mut H, number: u64) -> Result<(), DeviceError> {
    shelf.remove(alloc, number)
}

fn is_file(found: Option<&[u8]>, bytes: Option<&[u8]>) -> bool {
    match (found, bytes) {
        (Some(found), Some(bytes)) => found == bytes,
        (found, bytes) => found.is_none() && bytes.is_none(),
    }
}

fn has<H: Shelf>(
    rt: &(impl Abort + AllocGlobal),
    shelf: &mut H,
    number: u64,
    bytes: Option<&[u8]>,
) -> Result<(), Fail> {
    let found = shelf.get(rt.alloc(), number)?;
    assert!(rt; is_file(found.as_deref(), bytes));
    Ok(())
}

fn are(numbers: &[u64], wanted: &[u64]) -> bool {
    numbers == wanted
}

fn lists<H: Shelf>(
    rt: &(impl Abort + AllocGlobal),
    shelf: &mut H,
    numbers: &[u64],
) -> Result<(), Fail> {
    let found = shelf.list(rt.alloc())?;
    assert!(rt; are(&found, numbers));
    Ok(())
}

fn count_of<H: Shelf>(alloc: Global, shelf: &mut H) -> Result<usize, DeviceError> {
    Ok(shelf.list(alloc)?.len())
}

// The shelf has these files and no others.
fn has_all(
    rt: &(impl Abort + AllocGlobal),
    shelf: &mut MemoryShelf,
    files: Files<'_>,
) -> Result<(), Fail> {
    assert!(rt; count_of(rt.alloc(), shelf)? == files.len());
    for (number, bytes) in files {
        has(rt, shelf, *number, Some(*bytes))?;
    }
    Ok(())
}

fn puts_replace<H: Shelf>(rt: &(impl Abort + AllocGlobal), shelf: &mut H) -> Result<(), Fail> {
    let alloc = rt.alloc();
    put(alloc, shelf, 7, b"seven")?;
    put(alloc, shelf, 2, b"two")?;
    put(alloc, shelf, 7, b"7")?;
    has(rt, shelf, 7, Some(b"7"))?;
    has(rt, shelf, 3, None)?;
    lists(rt, shelf, &[2, 7])
}

fn removes_leave_the_others<H: Shelf>(
    rt: &(impl Abort + AllocGlobal),
    shelf: &mut H,
) -> Result<(), Fail> {
    let alloc = rt.alloc();
    put(alloc, shelf, u64::MAX, b"")?;
    remove(alloc, shelf, 7)?;
    remove(alloc, shelf, 7)?;
    has(rt, shelf, 7, None)?;
    has(rt, shelf, u64::MAX, Some(b""))?;
    lists(rt, shelf, &[2, u64::MAX])
}

#[test]
fn shelves_hold_what_was_put(rt: HostRuntime) -> Result<(), Fail> {
    let mut memory = shelf_of(rt.alloc(), &[], &[])?;
    puts_replace(&rt, &mut memory)?;
    removes_leave_the_others(&rt, &mut memory)?;
    let mut steady = SteadyShelf::new(rt.alloc());
    puts_replace(&rt, &mut steady)?;
    removes_leave_the_others(&rt, &mut steady)
}

#[test]
fn the_later_of_two_files_counts(rt: HostRuntime) -> Result<(), Fail> {
    let mut shelf = shelf_of(rt.alloc(), &[(4, b"a"), (1, b"b"), (4, b"c")], &[])?;
    has_all(&rt, &mut shelf, &[(1, b"b"), (4, b"c")])?;
    let mut shelf = shelf.crash(0);
    has_all(&rt, &mut shelf, &[(1, b"b"), (4, b"c")])
}

fn has_counted(shelf: &MemoryShelf, calls: u64, faults: u64) -> bool {
    shelf.calls() == calls && shelf.faults() == faults
}

#[test]
fn exactly_the_listed_calls_fail(rt: HostRuntime) -> Result<(), Fail> {
    let mut shelf = shelf_of(rt.alloc(), &[(1, b"one")], &[0, 2, 4, 6, 900])?;
    let calls: [(Call<'static>, &'static str); 7] = [
        (Call::Put(1, b"x"), "fault"),
        (Call::Get(1), "ok"),
        (Call::Remove(1), "fault"),
        (Call::List, "ok"),
        (Call::Get(1), "fault"),
        (Call::Put(2, b"two"), "ok"),
        (Call::List, "fault"),
    ];
    for (call, end) in calls {
        assert!(rt; is_end(ended(rt.alloc(), &mut shelf, call), end));
    }
    assert!(rt; has_counted(&shelf, 7, 4));
    has_all(&rt, &mut shelf, &[(1, b"one"), (2, b"two")])
}

// What this crash leaves of a shelf that went through this.
fn crashed(
    alloc: Global,
    failing: &[u64],
    calls: &[Call<'_>],
    pick: u64,
) -> Result<MemoryShelf, Fail> {
    let mut shelf = shelf_of(alloc, &[(1, b"one"), (3, b"three")], failing)?;
    for call in calls {
        ended(alloc, &mut shelf, *call);
    }
    Ok(shelf.crash(pick))
}

// Calls of which the ones with these numbers fail, and what each of the four crashes leaves then.
type Crashes<'a> = (&'a [u64], &'a [Call<'a>], [Files<'a>; 4]);

// A second crash leaves the same.
fn crashes_leave(rt: &(impl Abort + AllocGlobal), row: &Crashes<'_>) -> Result<(), Fail> {
    let (failing, calls, left) = *row;
    for pick in 0..4 {
        let mut shelf = crashed(rt.alloc(), failing, calls, pick as u64)?;
        assert!(rt; shelf.calls() == 0);
        has_all(rt, &mut shelf, left[pick])?;
        let mut again = shelf.crash(0);
        has_all(rt, &mut again, left[pick])?;
    }
    Ok(())
}

#[test]
fn a_crash_leaves_what_is_picked(rt: HostRuntime) -> Result<(), Fail> {
    let put: Files<'_> = &[(1, b"1"), (2, b"two"), (3, b"three")];
    let kept: Files<'_> = &[(1, b"one"), (3, b"three")];
    let gone: Files<'_> = &[(1, b"one")];
    let rows: &[Crashes<'_>] = &[
        (
            &[0],
            &[
                Call::Put(1, b"lost"),
                Call::Put(1, b"1"),
                Call::Put(2, b"two"),
            ],
            [put, put, put, put],
        ),
        (
            &[0],
            &[Call::Put(1, b"abcde")],
            [
                &[(3, b"three")],
                &[(1, b"abcde"), (3, b"three")],
                &[(1, b"ab"), (3, b"three")],
                &[(1, b"\xA5\xA5\xA5\xA5\xA5"), (3, b"three")],
            ],
        ),
        (
            &[0],
            &[Call::Put(2, b"x"), Call::Remove(2)],
            [
                kept,
                &[(1, b"one"), (2, b"x"), (3, b"three")],
                &[(1, b"one"), (2, b""), (3, b"three")],
                &[(1, b"one"), (2, b"\xA5"), (3, b"three")],
            ],
        ),
        (&[], &[Call::Remove(3)], [kept, gone, gone, gone]),
        (&[0], &[Call::Remove(3)], [kept, gone, gone, gone]),
        (
            &[0],
            &[Call::Remove(3), Call::Remove(3), Call::Remove(9)],
            [kept, gone, gone, gone],
        ),
    ];
    for row in rows {
        crashes_leave(&rt, row)?;
    }
    Ok(())
}
