//! A call that changes the strip, and the sync after it. Whatever they answer, at each moment within them the strip is
//! torn at most where the first of them changes it.
ghost use Rattle.std.specs.Prelude.{◌≡◌, ◌≤◌, length, take, OnOk};
ghost use Rattle.disk_model.specs.Calls.{IfTold};
ghost use Rattle.disk_model.specs.Crashes.{Follows};
ghost use Rattle.disk_model.specs.Strips.{Holds, Torn, Cut};
ghost use Rattle.frame_journal.specs.Devices.{SameStrip, CauseIn, IsSynced, Spans};

use disk_model::{DeviceError, Strip};
use std::alloc::Global;

/// Writes these bytes from place `at` on, and syncs.
pub fn write_synced<S: Strip>(
    alloc: Global,
    strip: &mut S,
    at: u64,
    bytes: &[u8],
) -> Result<(), DeviceError>
    requires { IfTold (S.tells strip.old) (at ≤ length (S.content strip.old)) }

    ensures written { OnOk result (IfTold (S.tells strip.old)
        (Holds (S.content strip.old) at bytes.now (S.content strip.new))) }
    ensures synced { OnOk result (IsSynced S.Strip strip.new) }
    ensures torn { IfTold (S.tells strip.old)
        (Torn at (length bytes.now) (S.content strip.old) (S.content strip.new)) }
    ensures images { Follows (Torn at (length bytes.now)) (S.may_leave strip.old) (S.may_leave strip.new) }
    ensures crash { Follows (Torn at (length bytes.now)) (S.may_leave strip.old)
        (S.left_since strip.new (S.moment strip.old)) }
    ensures time { Spans S.Strip strip.old strip.new }

    ensures strip { SameStrip S.Strip 2 strip.old strip.new }
    ensures cause { CauseIn S.Strip strip.old strip.new result }
{
    strip.write_at(alloc, at, bytes)?;
    strip.sync(alloc)
}

/// Leaves the first `at` bytes, and syncs.
pub fn cut_synced<S: Strip>(alloc: Global, strip: &mut S, at: u64) -> Result<(), DeviceError>
    requires { IfTold (S.tells strip.old) (at ≤ length (S.content strip.old)) }

    ensures cut { OnOk result (IfTold (S.tells strip.old)
        (S.content strip.new ≡ take at (S.content strip.old))) }
    ensures synced { OnOk result (IsSynced S.Strip strip.new) }
    ensures torn { IfTold (S.tells strip.old) (Cut at (S.content strip.old) (S.content strip.new)) }
    ensures images { Follows (Cut at) (S.may_leave strip.old) (S.may_leave strip.new) }
    ensures crash { Follows (Cut at) (S.may_leave strip.old) (S.left_since strip.new (S.moment strip.old)) }
    ensures time { Spans S.Strip strip.old strip.new }

    ensures strip { SameStrip S.Strip 2 strip.old strip.new }
    ensures cause { CauseIn S.Strip strip.old strip.new result }
{
    strip.cut(alloc, at)?;
    strip.sync(alloc)
}
