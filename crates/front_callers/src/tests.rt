//! Two callers at once, a thousand rows each.
use super::run_two_callers;
use rdb_base::{Key, Row, Value};
use std::alloc::Global;
use std::test::Fail;

// A thousand rows whose keys begin with this byte.
fn thousand_rows(alloc: Global, first: u8) -> Option<Vec<Row>> {
    let mut rows = Vec::new(alloc);
    for n in 0..1000_u16 {
        let [high, low] = n.to_be_bytes();
        let key = Key::try_new(alloc, &[first, high, low]).ok()?;
        let value = Value::try_new(alloc, &[high, low]).ok()?;
        rows.push(Row { key, value }).ok()?;
    }
    Some(rows)
}

#[test]
fn two_callers_make_one_history(rt: HostRuntime) -> Result<(), Fail> {
    let alloc = rt.alloc();
    let first = thousand_rows(alloc, b'a').expect(&rt, "memory");
    let second = thousand_rows(alloc, b'b').expect(&rt, "memory");
    let end = run_two_callers(&rt, alloc, first.as_slice(), second.as_slice());
    assert_eq!(rt; end, Some(2000));
    Ok(())
}
