//! Plans for members of all sizes.
use crate::load::Plans;
use partition_plan::{Decision, PartSize, plan};
use std::alloc::Global;

/// A member whose numbers look random.
fn member(place: u32) -> PartSize {
    let drawn = u64::from(place)
        .wrapping_add(1)
        .wrapping_mul(0x9E37_79B9_7F4A_7C15);
    PartSize {
        part: place,
        new: (drawn >> 40) % 200_000,
        carried_age: (drawn >> 20) % 8,
        runs: ((drawn >> 30) % 10) as u32,
        held: (drawn >> 10) % 5_000_000,
        merged: (drawn >> 5) % 5_000_000,
        parts: 2,
    }
}

fn members(alloc: Global, count: u32) -> Option<Vec<PartSize>> {
    let mut sizes = Vec::new(alloc);
    for place in 0..count {
        sizes.push(member(place)).ok()?;
    }
    Some(sizes)
}

fn splits_of(decisions: &[Decision]) -> u64 {
    let mut splits: u64 = 0;
    for decision in decisions {
        if *decision == Decision::Split {
            splits = splits.wrapping_add(1);
        }
    }
    splits
}

/// How many splits a plan has, of a store of 100 partitions.
fn splits_of_plan(alloc: Global, sizes: &[PartSize], may_abort: bool) -> Option<u64> {
    let mut into = Vec::with_capacity(alloc, sizes.len()).ok()?;
    plan(sizes, 100, may_abort, &mut into);
    Some(splits_of(into.as_slice()))
}

/// How many splits all plans have together; every other one may abort. None if it runs out of memory.
pub(crate) fn sum_of(alloc: Global, load: &Plans) -> Option<u64> {
    let sizes = members(alloc, load.members)?;
    let mut sum: u64 = 0;
    for time in 0..load.times {
        let splits = splits_of_plan(alloc, sizes.as_slice(), time % 2 == 0)?;
        sum = sum.wrapping_add(splits);
    }
    Some(sum)
}
