//! The bytes of an edition, written out by hand, and the place of each wrong field.
use crate::{
    Edition, EditionError, EditionPart, IndexField, RunField, decode_edition, encode_edition,
};
use std::alloc::Global;
use std::process::Abort;
use std::test::Fail;

/// Edition 5, of three partitions. Each field's place stands on the right.
const PAYLOAD: &[u8] = b"\
\0\0\0\0\0\0\0\x05\
\0\0\0\0\0\0\0\x09\
\0\0\0\0\0\0\0\x07\
\0\0\0\x03\
\0\0\
\0\0\0\0\0\0\0\x07\
\x01\
\0\0\0\0\0\0\0\x03\0\0\0\0\0\0\x10\x12aaaaaaaaaaaaaaaaaaaaaaaaaaaaaaaa\
\0\0\0\0\0\0\0\0\0\0\0\0\0\0\0\0\0\0\0\0\0\0\0\0\0\0\0\0\0\0\0\0\0\0\0\0\0\0\0\0\0\0\0\0\0\0\0\0\
\0\x01m\
\0\0\0\0\0\0\0\x09\
\x02\
\0\0\0\0\0\0\0\x08\0\0\0\0\0\0\x20\x24bbbbbbbbbbbbbbbbbbbbbbbbbbbbbbbb\
\0\0\0\0\0\0\0\x02\0\0\0\0\0\0\x10\x12cccccccccccccccccccccccccccccccc\
\0\0\0\0\0\0\0\x04\0\0\0\0\0\0\0\x5Adddddddddddddddddddddddddddddddd\
\0\x01x\
\0\0\0\0\0\0\0\x01\
\0\
\0\0\0\0\0\0\0\0\0\0\0\0\0\0\0\0\0\0\0\0\0\0\0\0\0\0\0\0\0\0\0\0\0\0\0\0\0\0\0\0\0\0\0\0\0\0\0\0";

/// The payload is that of the edition that it is decoded to, and of its copy.
fn is_read_back(
    rt: &(impl Abort + AllocGlobal),
    alloc: Global,
    payload: &[u8],
) -> Result<(), Fail> {
    let edition = decode_edition(alloc, payload)?;
    assert_eq!(rt; encode_edition(alloc, &edition)?.as_slice(), payload);
    let copy = edition.try_copy(alloc)?;
    assert_eq!(rt; encode_edition(alloc, &copy)?.as_slice(), payload);
    Ok(())
}

#[test]
fn a_payload_is_that_of_its_edition(rt: HostRuntime) -> Result<(), Fail> {
    is_read_back(&rt, rt.alloc(), PAYLOAD)
}

/// The file of a run, whose digest has this byte 32 times.
fn file(number: u64, length: u64, byte: u8) -> RunField {
    let digest = [byte; 32];
    RunField {
        number,
        length,
        digest,
    }
}

#[test]
fn an_edition_has_these_numbers(rt: HostRuntime) -> Result<(), Fail> {
    let edition = decode_edition(rt.alloc(), PAYLOAD)?;
    assert_eq!(rt; edition.number, 5);
    assert_eq!(rt; edition.next, 9);
    assert_eq!(rt; edition.first, 7);
    assert_eq!(rt; edition.partitions.len(), 3);
    Ok(())
}

/// A partition has these fields.
fn has_fields(
    rt: &impl Abort,
    part: &EditionPart,
    low: &[u8],
    base: u64,
    runs: &[RunField],
    index: Option<IndexField>,
) {
    assert!(rt; part.low.as_slice() == low);
    assert_eq!(rt; part.base, base);
    assert!(rt; part.runs.as_slice() == runs);
    assert!(rt; part.index == index);
}

#[test]
fn its_partitions_have_these_fields(rt: HostRuntime) -> Result<(), Fail> {
    let edition = decode_edition(rt.alloc(), PAYLOAD)?;
    let [first, second, third] = edition.partitions.as_slice() else {
        return Err("three partitions")?;
    };
    has_fields(&rt, first, &[], 7, &[file(3, 4114, b'a')], None);
    let runs = [file(8, 8228, b'b'), file(2, 4114, b'c')];
    let digest = [b'd'; 32];
    let index = IndexField {
        number: 4,
        length: 90,
        digest,
    };
    has_fields(&rt, second, b"m", 9, &runs, Some(index));
    has_fields(&rt, third, b"x", 1, &[], None);
    Ok(())
}

/// The payload with these bytes from this place on, and no byte after them where `cut` says so.
fn changed(
    alloc: Global,
    payload: &[u8],
    at: usize,
    bytes: &[u8],
    cut: bool,
) -> Result<Vec<u8>, Fail> {
    let (before, rest) = payload.split_at(at.min(payload.len()));
    let mut made = Vec::from_slice(alloc, before)?;
    made.extend_from_slice(bytes)?;
    if !cut {
        let (_, after) = rest.split_at(bytes.len().min(rest.len()));
        made.extend_from_slice(after)?;
    }
    Ok(made)
}

/// The payload is refused at this place.
fn is_wrong_at(
    rt: &(impl Abort + AllocGlobal),
    alloc: Global,
    payload: &[u8],
    wrong: usize,
) -> Result<(), Fail> {
    match decode_edition(alloc, payload) {
        Err(EditionError::BadEdition { at }) => assert_eq!(rt; at, wrong),
        _ => Err("no wrong edition")?,
    }
    Ok(())
}

#[test]
fn a_field_that_the_end_cuts_is_told_by_its_place(rt: HostRuntime) -> Result<(), Fail> {
    let alloc = rt.alloc();
    let rows: [(usize, usize); 20] = [
        (0, 0),
        (7, 0),
        (15, 8),
        (23, 16),
        (27, 24),
        (29, 28),
        (37, 30),
        (38, 38),
        (46, 39),
        (54, 47),
        (86, 55),
        (94, 87),
        (102, 95),
        (134, 103),
        (136, 135),
        (137, 137),
        (145, 138),
        (146, 146),
        (290, 259),
        (350, 319),
    ];
    for (at, wrong) in rows {
        let payload = changed(alloc, PAYLOAD, at, b"", true)?;
        is_wrong_at(&rt, alloc, payload.as_slice(), wrong)?;
    }
    Ok(())
}

#[test]
fn a_wrong_field_is_told_by_its_place(rt: HostRuntime) -> Result<(), Fail> {
    let alloc = rt.alloc();
    let rows: [(usize, &[u8], usize); 25] = [
        // The edition's number is 0, or was not drawn; `first` is above each base.
        (7, b"\0", 0),
        (7, b"\x09", 0),
        (23, b"\x0A", 16),
        // No partition, and 4,097 of them.
        (27, b"\0", 24),
        (26, b"\x10\x01", 24),
        // The first bound is not empty; a later one is, is too long, and does not rise.
        (29, b"\x01", 28),
        (136, b"\0", 135),
        (135, b"\x04\x01", 135),
        (293, b"m", 291),
        (293, b"a", 291),
        // Nine runs.
        (38, b"\x09", 38),
        // The number of a file is 0, was not drawn, or stands before: in a run, and in an index.
        (46, b"\0", 39),
        (46, b"\x09", 39),
        (154, b"\x03", 147),
        (202, b"\x08", 195),
        (250, b"\x09", 243),
        (250, b"\x08", 243),
        (250, b"\x03", 243),
        // No index, and yet a length or a digest.
        (102, b"\x01", 95),
        (103, b"\x01", 103),
        (134, b"\x01", 103),
        (250, b"\0", 251),
        // An index without a run.
        (310, b"\x01", 303),
        (318, b"\x01", 311),
        // A byte after the last field.
        (351, b"\0", 351),
    ];
    for (at, bytes, wrong) in rows {
        let payload = changed(alloc, PAYLOAD, at, bytes, false)?;
        is_wrong_at(&rt, alloc, payload.as_slice(), wrong)?;
    }
    Ok(())
}

#[test]
fn of_two_wrong_fields_the_first_is_told(rt: HostRuntime) -> Result<(), Fail> {
    let alloc = rt.alloc();
    let rows: [(usize, &[u8], usize); 6] = [
        // A number of 0 is wrong before a cut `next`; one that was not drawn needs the whole of it.
        (0, b"\0\0\0\0\0\0\0\0\0", 0),
        (7, b"\x09\0", 8),
        (7, b"\x09\0\0\0\0\0\0\0\x09", 0),
        // `first` comes last of all.
        (23, b"\x0A", 24),
        (23, b"\x0A\0\0\0\x01\0\0\0\0\0\0\0\0\0\x07\x09", 38),
        // A payload that claims 4,096 partitions and has ten bytes of them.
        (24, b"\0\0\x10\0\0\0\0\0\0\0\0\0\0\0", 38),
    ];
    for (at, bytes, wrong) in rows {
        let payload = changed(alloc, PAYLOAD, at, bytes, true)?;
        is_wrong_at(&rt, alloc, payload.as_slice(), wrong)?;
    }
    Ok(())
}

#[test]
fn numbers_that_are_far_apart_are_told_apart(rt: HostRuntime) -> Result<(), Fail> {
    let alloc = rt.alloc();
    let wide = changed(alloc, PAYLOAD, 8, b"\x80", false)?;
    let far = changed(alloc, wide.as_slice(), 147, b"\x70\0\0\0\0\0\0\x03", false)?;
    is_read_back(&rt, alloc, far.as_slice())?;
    let twice = changed(alloc, far.as_slice(), 195, b"\x70\0\0\0\0\0\0\x03", false)?;
    is_wrong_at(&rt, alloc, twice.as_slice(), 195)
}

#[test]
fn the_initial_edition_has_no_run(rt: HostRuntime) -> Result<(), Fail> {
    let edition = Edition::initial(rt.alloc())?;
    assert_eq!(rt; edition.number, 0);
    assert_eq!(rt; edition.next, 1);
    assert_eq!(rt; edition.first, 0);
    let [part] = edition.partitions.as_slice() else {
        return Err("one partition")?;
    };
    let copy = part.try_copy(rt.alloc())?;
    has_fields(&rt, &copy, &[], 0, &[], None);
    Ok(())
}
