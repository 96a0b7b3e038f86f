//! A host in memory whose source gives few bytes at a time.
ghost use Rattle.std.specs.Prelude.{◌≡◌, ◌<◌};
ghost use Rattle.disk_model.specs.Facts.{AreDevices};
ghost use Rattle.host_model.specs.Lent.{IsOut, taken_back};
ghost use Rattle.host_model.specs.HostState.{LeaveSame, LeavesSame, ShelfLeaves, StripLeaves, device_bytes, device_counts};

use crate::tests::piece_source::PieceSource;
use disk_model::{DeviceError, Devices, MemoryShelf, MemoryStrip, Shelf, Strip};
use host_model::{Host, MemoryHost, Place};
use link_model::ByteSink;
use std::alloc::Global;

/// A host in memory whose source gives at most so many bytes a call.
#[derive(Drop)]
pub struct PieceHost {
    pub host: MemoryHost,
    pub most: usize,
    ghost some: { 0 < most },
}

impl Host for PieceHost {
    type Strip = MemoryStrip;

    type Shelf = MemoryShelf;

    type In = PieceSource;

    type Out = ByteSink;

    ghost state = { λ h. ⟦<MemoryHost as Host>⟧.state h.host };

    ghost strip_leaves = { λ h. ⟦<MemoryHost as Host>⟧.strip_leaves h.host };

    ghost shelf_leaves = { λ h. ⟦<MemoryHost as Host>⟧.shelf_leaves h.host };

    fn devices(
        &mut self,
        alloc: Global,
        place: &Place,
    ) -> Result<Devices<MemoryStrip, MemoryShelf>, DeviceError> {
        self.host.devices(alloc, place)
    }

    fn give_back(&mut self, devices: Devices<MemoryStrip, MemoryShelf>)
        requires out { IsOut (device_counts ⟦<MemoryStrip as Strip>⟧ ⟦<MemoryShelf as Shelf>⟧ devices)
            (⟦<MemoryHost as Host>⟧.state self.old.host).devices }
        requires all { AreDevices ⟦<MemoryStrip as Strip>⟧ ⟦<MemoryShelf as Shelf>⟧ devices }
        ensures back { ⟦<MemoryHost as Host>⟧.state self.new.host ≡ record (⟦<MemoryHost as Host>⟧.state self.old.host) {
          devices = taken_back (device_bytes ⟦<MemoryStrip as Strip>⟧ ⟦<MemoryShelf as Shelf>⟧ devices)
              (device_counts ⟦<MemoryStrip as Strip>⟧ ⟦<MemoryShelf as Shelf>⟧ devices)
              (⟦<MemoryHost as Host>⟧.state self.old.host).devices;
        } }
        ensures strip_images { LeaveSame (StripLeaves ⟦<MemoryStrip as Strip>⟧ devices)
            (⟦<MemoryHost as Host>⟧.strip_leaves self.new.host) }
        ensures shelf_images { LeavesSame (ShelfLeaves ⟦<MemoryShelf as Shelf>⟧ devices)
            (⟦<MemoryHost as Host>⟧.shelf_leaves self.new.host) }
    {
        self.host.give_back(devices);
    }

    fn streams(&mut self) -> (PieceSource, ByteSink) {
        let (source, sink) = self.host.streams();
        let most = self.most;
        (PieceSource { source, most }, sink)
    }

    fn give_streams(&mut self, source: PieceSource, sink: ByteSink) {
        let PieceSource {
            source,
            most: _most,
        } = source;
        self.host.give_streams(source, sink);
    }

    fn note(&mut self, line: &[u8]) {
        self.host.note(line);
    }
}
