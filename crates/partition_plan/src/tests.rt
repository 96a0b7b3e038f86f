//! The worked plan, a plan for every limit, and sizes that no partition has.
use crate::laws::{
    compaction_of_partitions, compaction_of_plan, cut_of_rows, decisions_of_plan,
    pieces_of_partition,
};
use crate::{Decision, PartSize, plan};
use std::process::Abort;
use std::test::Fail;

/// A member whose rows after a major compaction have the size of all its pairs, and which a split cuts in two.
fn member(new: u64, carried_age: u64, runs: u32, held: u64, merged: u64) -> PartSize {
    PartSize {
        part: 0,
        new,
        carried_age,
        runs,
        held,
        merged,
        parts: 2,
    }
}

/// Plans these members, of so many partitions, and expects these decisions.
fn is_planned(
    rt: &(impl Abort + AllocGlobal),
    sizes: &[PartSize],
    partitions: u32,
    may_abort: bool,
    decisions: &[Decision],
) -> Result<(), Fail> {
    let mut into = Vec::with_capacity(rt.alloc(), sizes.len())?;
    plan(sizes, partitions, may_abort, &mut into);
    assert!(rt; into.as_slice() == decisions);
    Ok(())
}

/// New data, their age, runs, what these hold, the rows after a major compaction, and the decision of this one member.
const WORKED: [(u64, u64, u32, u64, u64, Decision); 8] = [
    (65_535, 0, 0, 0, 65_535, Decision::Abort),
    (65_536, 0, 7, 1_000_000, 1_000_000, Decision::Minor),
    (65_536, 0, 8, 1_000_000, 1_000_000, Decision::Major),
    (94_304, 0, 3, 4_100_000, 4_194_304, Decision::Minor),
    (94_305, 0, 3, 4_100_000, 4_194_304, Decision::Major),
    (94_305, 0, 3, 4_100_000, 4_194_305, Decision::Split),
    (10, 5, 1, 100, 110, Decision::Abort),
    (10, 6, 1, 100, 110, Decision::Minor),
];

#[test]
fn each_member_gets_the_first_decision_whose_test_holds(rt: HostRuntime) -> Result<(), Fail> {
    for (new, age, runs, held, merged, decision) in &WORKED {
        let size = member(*new, *age, *runs, *held, *merged);
        is_planned(&rt, &[size], 3, true, &[*decision])?;
    }
    let small = member(65_535, 0, 0, 0, 65_535);
    is_planned(&rt, &[small], 3, false, &[Decision::Minor])
}

/// Sixteen members of 65,535 bytes, and one of these new sizes after them.
fn after_sixteen(
    rt: &(impl Abort + AllocGlobal),
    new: u64,
    merged: u64,
    decision: Decision,
) -> Result<(), Fail> {
    let alloc = rt.alloc();
    let mut sizes = Vec::from_elem(alloc, member(65_535, 0, 0, 0, 65_535), 16)?;
    sizes.push(member(new, 0, 1, 100, merged))?;
    let mut decisions = Vec::from_elem(alloc, Decision::Abort, 16)?;
    decisions.push(decision)?;
    is_planned(rt, sizes.as_slice(), 17, true, decisions.as_slice())
}

#[test]
fn what_sixteen_members_carry_on_leaves_sixteen_bytes(rt: HostRuntime) -> Result<(), Fail> {
    after_sixteen(&rt, 16, 116, Decision::Abort)?;
    after_sixteen(&rt, 17, 117, Decision::Minor)
}

/// Only what is carried on counts: a member between two small ones that gets a run leaves them their room.
#[test]
fn what_becomes_a_run_is_not_carried_on(rt: HostRuntime) -> Result<(), Fail> {
    let small = member(10, 0, 1, 100, 110);
    let large = member(1_048_570, 0, 1, 100, 1_048_670);
    is_planned(
        &rt,
        &[small, large, small],
        3,
        true,
        &[Decision::Abort, Decision::Minor, Decision::Abort],
    )
}

/// Each split into two makes one partition more: from 4,094 on there is room for two splits, and then no more.
#[test]
fn a_split_takes_one_partition_and_adds_its_parts(rt: HostRuntime) -> Result<(), Fail> {
    let large = member(94_305, 0, 3, 4_100_000, 4_194_305);
    is_planned(
        &rt,
        &[large, large, large],
        4_094,
        true,
        &[Decision::Split, Decision::Split, Decision::Major],
    )
}

/// A member with the greatest number in every field: its sums would not fit 64 bits.
const GREATEST: PartSize = PartSize {
    part: u32::MAX,
    new: u64::MAX,
    carried_age: u64::MAX,
    runs: u32::MAX,
    held: u64::MAX,
    merged: u64::MAX,
    parts: u32::MAX,
};

#[test]
fn no_sum_wraps(rt: HostRuntime) -> Result<(), Fail> {
    let large = PartSize {
        runs: 0,
        merged: 0,
        ..GREATEST
    };
    is_planned(
        &rt,
        &[GREATEST, large],
        u32::MAX,
        true,
        &[Decision::Major, Decision::Major],
    )
}

#[test]
fn no_members_have_no_decisions(rt: HostRuntime) -> Result<(), Fail> {
    is_planned(&rt, &[], 1, true, &[])
}

/// A split into no part, which no partition has, does not take the number of partitions below zero.
#[test]
fn no_difference_wraps(rt: HostRuntime) -> Result<(), Fail> {
    let none = PartSize {
        parts: 0,
        ..GREATEST
    };
    is_planned(
        &rt,
        &[none, none],
        0,
        true,
        &[Decision::Split, Decision::Split],
    )
}

#[test]
fn the_laws_hold(_rt: HostRuntime) -> Result<(), Fail> {
    decisions_of_plan();
    cut_of_rows();
    pieces_of_partition();
    compaction_of_partitions();
    compaction_of_plan();
    Ok(())
}
