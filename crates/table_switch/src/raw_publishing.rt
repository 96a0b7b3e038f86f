//! Calls over the writer of the two copies.
ghost use Rattle.std.specs.Prelude.{◌≡◌, [], Some, None, drop, OnOk, OnErr};
ghost use Rattle.left_right.specs.Sides.{view};
ghost use Rattle.table_switch.specs.Published.{IsNext, told_all, pending_of};

use crate::ends::RawWriter;
use crate::publishing::Looks;
use crate::told::Told;
use core::mem::replace_with;
use rdb_base::NoMemory;
use std::alloc::AllocError;
use std::sync::Wait;

/// Publishes all that it was told, and gives the writer back.
pub(crate) fn publish_once<R: Wait>(rt: &R, writer: RawWriter) -> (RawWriter, Result<(), NoMemory>)
    requires next { IsNext writer.desk.shown.value (told_all writer.desk.shown.value (drop writer.behind writer.log.items)) }
    ensures published { OnOk result.1 (result.0.desk.shown.value
        ≡ told_all writer.desk.shown.value (drop writer.behind writer.log.items)) }
    ensures pending { OnOk result.1 (drop result.0.behind result.0.log.items ≡ []) }
    ensures known { OnOk result.1 (view result.0.desk.place ≡ Some result.0.desk.shown.value.front) }
    ensures refused { OnErr result.1 (result.0.desk.shown.value ≡ writer.desk.shown.value) }
    ensures kept { OnErr result.1 (drop result.0.behind result.0.log.items ≡ drop writer.behind writer.log.items) }
    ensures knew { OnErr result.1 (view result.0.desk.place ≡ view writer.desk.place) }
{
    writer.publish_as::<Looks, R>(rt)
}

/// Publishes all that is pending, the one that waits too.
pub(crate) fn publish_all<R: Wait>(
    rt: &R,
    writer: &mut RawWriter,
    waiting: &mut Option<Told>,
) -> Result<(), NoMemory>
    requires next { IsNext writer.old.desk.shown.value (told_all writer.old.desk.shown.value
        (pending_of (drop writer.old.behind writer.old.log.items) waiting.old)) }
    ensures published { OnOk result (writer.new.desk.shown.value ≡ told_all writer.old.desk.shown.value
        (pending_of (drop writer.old.behind writer.old.log.items) waiting.old)) }
    ensures pending { OnOk result (pending_of (drop writer.new.behind writer.new.log.items) waiting.new ≡ []) }
    ensures known { OnOk result (view writer.new.desk.place ≡ Some writer.new.desk.shown.value.front) }
    ensures refused { OnErr result (writer.new.desk.shown.value ≡ writer.old.desk.shown.value) }
    ensures kept { OnErr result (pending_of (drop writer.new.behind writer.new.log.items) waiting.new
        ≡ pending_of (drop writer.old.behind writer.old.log.items) waiting.old) }
    ensures knew { OnErr result (view writer.new.desk.place ≡ view writer.old.desk.place) }
{
    send(writer, waiting)?;
    publish_told(rt, writer)
}

/// Publishes all that the writer was told.
fn publish_told<R: Wait>(rt: &R, writer: &mut RawWriter) -> Result<(), NoMemory>
    requires next { IsNext writer.old.desk.shown.value
        (told_all writer.old.desk.shown.value (drop writer.old.behind writer.old.log.items)) }
    ensures published { OnOk result (writer.new.desk.shown.value
        ≡ told_all writer.old.desk.shown.value (drop writer.old.behind writer.old.log.items)) }
    ensures pending { OnOk result (drop writer.new.behind writer.new.log.items ≡ []) }
    ensures known { OnOk result (view writer.new.desk.place ≡ Some writer.new.desk.shown.value.front) }
    ensures refused { OnErr result (writer.new.desk.shown.value ≡ writer.old.desk.shown.value) }
    ensures kept { OnErr result (drop writer.new.behind writer.new.log.items
        ≡ drop writer.old.behind writer.old.log.items) }
    ensures knew { OnErr result (view writer.new.desk.place ≡ view writer.old.desk.place) }
{
    replace_with(writer, rt, |writer, rt| publish_once(rt, writer))
}

/// Tells the writer the one that waits. Out of memory, it waits on.
pub(crate) fn send(writer: &mut RawWriter, waiting: &mut Option<Told>) -> Result<(), NoMemory>
    ensures desk { writer.new.desk ≡ writer.old.desk }
    ensures same { pending_of (drop writer.new.behind writer.new.log.items) waiting.new
        ≡ pending_of (drop writer.old.behind writer.old.log.items) waiting.old }
    ensures sent { OnOk result (waiting.new ≡ None) }
    ensures all { OnOk result (drop writer.new.behind writer.new.log.items
        ≡ pending_of (drop writer.old.behind writer.old.log.items) waiting.old) }
{
    match waiting.take() {
        None => Ok(()),
        Some(told) => match writer.append(told) {
            Ok(()) => Ok(()),
            Err(told) => {
                *waiting = Some(told);
                Err(AllocError)
            }
        },
    }
}
