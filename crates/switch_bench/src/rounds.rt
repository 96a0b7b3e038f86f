//! Switches that are made, used and dropped, one after the other.
use crate::anchors::{append_each, first_anchors};
use std::alloc::Global;
use std::sync::Wait;
use table_switch::{Switch, Waits};
use worm_leaf::Anchor;

/// How often a switch was made, used and dropped.
pub(crate) fn make_and_drop<R: Wait>(
    rt: &R,
    alloc: Global,
    readers: u32,
    times: u32,
) -> Option<u64> {
    let anchors = first_anchors(alloc)?;
    let mut count: u64 = 0;
    for _ in 0..times {
        round(rt, alloc, readers, anchors.as_slice())?;
        count = count.wrapping_add(1);
    }
    Some(count)
}

/// One switch, whose two copies have all anchors.
fn round<R: Wait>(rt: &R, alloc: Global, readers: u32, anchors: &[Anchor]) -> Option<()> {
    let (mut writer, places) = Switch::make(alloc, readers, Waits::new(rt)).ok()?;
    append_each(alloc, &mut writer, anchors)?;
    writer.publish(rt).ok()?;
    writer.publish(rt).ok()?;
    drop(places);
    Some(())
}
