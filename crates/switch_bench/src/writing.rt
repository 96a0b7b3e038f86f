//! Appends and publishes, beside readers that are not inside.
use crate::anchors::{append, append_each, first_anchors, more_anchors};
use std::alloc::Global;
use std::sync::Wait;
use table_switch::{Switch, Waits};

/// Appends so many anchors and publishes them at once. How many were appended is the answer.
pub(crate) fn append_all<R: Wait>(rt: &R, alloc: Global, readers: u32, times: u32) -> Option<u64> {
    written(rt, alloc, readers, times, false)
}

/// Appends so many anchors and publishes each. How many were appended is the answer.
pub(crate) fn publish_all<R: Wait>(rt: &R, alloc: Global, readers: u32, times: u32) -> Option<u64> {
    written(rt, alloc, readers, times, true)
}

fn written<R: Wait>(rt: &R, alloc: Global, readers: u32, times: u32, each: bool) -> Option<u64> {
    let anchors = first_anchors(alloc)?;
    let more = more_anchors(alloc)?;
    let (mut writer, places) = Switch::make(alloc, readers, Waits::new(rt)).ok()?;
    append_each(alloc, &mut writer, anchors.as_slice())?;
    writer.publish(rt).ok()?;
    let mut count: u64 = 0;
    for (anchor, leaf) in more.iter().zip(0..times) {
        append(alloc, &mut writer, anchor, leaf)?;
        if each {
            writer.publish(rt).ok()?;
        }
        count = count.wrapping_add(1);
    }
    writer.publish(rt).ok()?;
    drop(places);
    Some(count)
}
