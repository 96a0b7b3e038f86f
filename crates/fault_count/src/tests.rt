use crate::{COUNT_MAX, FaultCount};
use std::test::Fail;

#[test]
fn a_count_stands_still_at_its_last_value(rt: HostRuntime) -> Result<(), Fail> {
    let mut count = FaultCount::new();
    assert_eq!(rt; count.get(), 0);
    count.rise();
    assert_eq!(rt; count.get(), 1);
    count.rise_by(COUNT_MAX - 2);
    assert_eq!(rt; count.get(), COUNT_MAX - 1);
    count.rise();
    count.rise();
    assert_eq!(rt; count.get(), COUNT_MAX);
    count.rise_by(7);
    assert_eq!(rt; count.get(), COUNT_MAX);
    Ok(())
}
