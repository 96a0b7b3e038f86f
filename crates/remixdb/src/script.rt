//! One session from a host's source to its sink, over a store whose devices are at a place of the host.
ghost use Rattle.std.specs.Prelude.{◌≢◌};
ghost use Rattle.remixdb.specs.Outcomes.{status_of};
ghost use Rattle.host_model.specs.HostState.{IsAllHome};
ghost use Rattle.remixdb.specs.Scripts.{HasCauses, ScriptEnds, home_of};
ghost use Rattle.remixdb.specs.declared.outcome.Outcome.TheVariants.{UnknownWords};

use crate::outcome::Outcome;
use host_model::{Host, Place};
use session_core::{SessionOut, run_session};
use std::alloc::Global;
use store_run::Store;

/// Opens the devices of the place, serves one session over the store that they have, and closes it.
pub(crate) fn script<H: Host>(alloc: Global, place: &Place, host: &mut H) -> Outcome
    requires { IsAllHome (H.state host.old) }
    ensures home { IsAllHome (H.state host.new) }
    ensures known { result ≢ UnknownWords }
    ensures causes { HasCauses (status_of result) (H.state host.old) (H.state host.new) }
    ensures bytes { ScriptEnds (status_of result) (H.strip_leaves host.old 0) (H.strip_leaves host.new 0)
        (home_of (H.state host.old)) (home_of (H.state host.new)) }
{
    let devices = match host.devices(alloc, place) {
        Ok(devices) => devices,
        Err(error) => return Outcome::of_failure(&error),
    };
    let (store, mut pass) = match Store::open(alloc, devices) {
        Ok(made) => made,
        Err((devices, error)) => {
            host.give_back(devices);
            return Outcome::of_refusal(&error);
        }
    };
    let (mut source, mut sink) = host.streams();
    let SessionOut { end, faults, .. } = run_session(
        alloc,
        &store,
        &mut pass,
        &mut source,
        &mut sink,
    );
    host.give_streams(source, sink);
    pass.tell_synced();
    let closed = store.close(alloc, pass, faults);
    host.give_back(closed.devices);
    Outcome::of_run(closed.short, closed.faults.least_device(), end)
}
