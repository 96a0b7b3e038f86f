//! The payload of an edition, made by itself: the numbers of files rise, and each partition has an index.
use std::alloc::Global;

/// The bytes of each file.
const LENGTH: u64 = 4114;

fn add_file(out: &mut Vec<u8>, number: u64) -> Option<()> {
    out.extend_from_slice(&number.to_be_bytes()).ok()?;
    out.extend_from_slice(&LENGTH.to_be_bytes()).ok()?;
    out.extend_from_slice(&[7; 32]).ok()?;
    Some(())
}

/// The first low bound is empty, each other one has 16 bytes.
fn add_low(out: &mut Vec<u8>, place: u32) -> Option<()> {
    if place == 0 {
        out.extend_from_slice(&[0; 2]).ok()?;
        return Some(());
    }
    out.extend_from_slice(&[0, 16]).ok()?;
    out.extend_from_slice(&[b'k'; 12]).ok()?;
    out.extend_from_slice(&place.to_be_bytes()).ok()?;
    Some(())
}

fn add_part(out: &mut Vec<u8>, place: u32, runs: u8, first: u64) -> Option<()> {
    add_low(out, place)?;
    out.extend_from_slice(&[0, 0, 0, 0, 0, 0, 0, 9]).ok()?;
    out.push(runs).ok()?;
    for run in 0..runs {
        add_file(out, first.wrapping_add(run as u64))?;
    }
    add_file(out, first.wrapping_add(runs as u64))
}

/// The payload of an edition of so many partitions with so many runs each.
pub(crate) fn made_payload(alloc: Global, partitions: u32, runs: u8) -> Option<Vec<u8>> {
    let files = runs as u64 + 1;
    let number = partitions as u64 * files + 1;
    let next = number + 1;
    let mut out = Vec::new(alloc);
    out.extend_from_slice(&number.to_be_bytes()).ok()?;
    out.extend_from_slice(&next.to_be_bytes()).ok()?;
    out.extend_from_slice(&[0; 8]).ok()?;
    out.extend_from_slice(&partitions.to_be_bytes()).ok()?;
    for place in 0..partitions {
        add_part(&mut out, place, runs, place as u64 * files + 1)?;
    }
    Some(out)
}
