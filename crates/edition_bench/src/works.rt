ghost use Rattle.edition_code.specs.Editions.{IsEdition};

use crate::load::{Load, Work};
use crate::made::made_payload;
use edition_code::{Edition, decode_edition, encode_edition};
use std::alloc::Global;

/// How many partitions all editions have together that are decoded so often.
fn sum_of_decodes(alloc: Global, payload: &[u8], times: u32) -> Option<u64> {
    let mut sum: u64 = 0;
    for _ in 0..times {
        let edition = decode_edition(alloc, payload).ok()?;
        sum = sum.wrapping_add(edition.partitions.len() as u64);
    }
    Some(sum)
}

/// How many bytes all payloads have together.
fn sum_of_encodes(alloc: Global, edition: &Edition, times: u32) -> Option<u64>
    requires { IsEdition edition.now }
{
    let mut sum: u64 = 0;
    for _ in 0..times {
        let payload = encode_edition(alloc, edition).ok()?;
        sum = sum.wrapping_add(payload.len() as u64);
    }
    Some(sum)
}

/// How many partitions all copies have together.
fn sum_of_copies(alloc: Global, edition: &Edition, times: u32) -> Option<u64> {
    let mut sum: u64 = 0;
    for _ in 0..times {
        let copy = edition.try_copy(alloc).ok()?;
        sum = sum.wrapping_add(copy.partitions.len() as u64);
    }
    Some(sum)
}

/// The sum over what a load makes. None if it runs out of memory, or there is no such edition.
pub(crate) fn sum_of(alloc: Global, load: &Load) -> Option<u64> {
    let payload = made_payload(alloc, load.partitions, load.runs)?;
    let edition = decode_edition(alloc, payload.as_slice()).ok()?;
    match load.work {
        Work::Decode => sum_of_decodes(alloc, payload.as_slice(), load.times),
        Work::Encode => sum_of_encodes(alloc, &edition, load.times),
        Work::Copy => sum_of_copies(alloc, &edition, load.times),
    }
}
