//! That the laws are there, and what a bound is.
use crate::Bound;
use crate::laws::{
    answers_of_runs, bases_are_settled, drafts_are_compactions, named_files_stand,
    no_earlier_segment_is_needed,
};
use std::test::Fail;

#[test]
fn the_laws_hold(_rt: HostRuntime) -> Result<(), Fail> {
    answers_of_runs();
    drafts_are_compactions();
    bases_are_settled();
    named_files_stand();
    no_earlier_segment_is_needed();
    Ok(())
}

#[test]
fn a_bound_has_its_bytes(rt: HostRuntime) -> Result<(), Fail> {
    let bound = Bound::new(Vec::from_slice(rt.alloc(), &[97, 0])?);
    assert!(rt; bound.as_bytes() == [97, 0].as_slice());
    Ok(())
}
