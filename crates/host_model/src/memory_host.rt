ghost use Rattle.std.specs.Prelude.{◌≡◌, ◌⊎◌, [], ◌++◌, length, Some, None};
ghost use Rattle.std.specs.Option.{option_copied, option_map, ForSome, MatchOption};
ghost use Rattle.disk_model.specs.Facts.{AreDevices};
ghost use Rattle.disk_model.specs.declared.limits.TheConstants.{LOG_STRIPS};
ghost use Rattle.host_model.specs.Lent.{IsOut, lent_of, risen, total_of};
ghost use Rattle.host_model.specs.HostState.{IsAllHome, device_bytes, device_counts, stream_bytes, stream_counts};
ghost use Rattle.host_model.specs.MemoryHome.{StripLeavesHome, ShelfLeavesHome};

use crate::host::Host;
use crate::lending::Lending;
use crate::place::Place;
use disk_model::{DeviceError, Devices, MemoryShelf, MemoryStrip, Shelf, Strip};
use link_model::{ByteSink, ByteSource, Sink, Source};
use std::alloc::Global;

type MemoryDevices = Devices<MemoryStrip, MemoryShelf>;

/// A host in memory: contracts see the bytes and the crash images of its devices and the bytes of its streams, and its
/// notes are kept. Whatever the place, it hands out the same devices.
#[derive(Drop)]
pub struct MemoryHost {
    devices: Lending<MemoryDevices, 11>,
    streams: Lending<(ByteSource, ByteSink), 2>,
    notes: Vec<u8>,
    ghost devices_are: { ForSome devices.thing (AreDevices ⟦<MemoryStrip as Strip>⟧ ⟦<MemoryShelf as Shelf>⟧) },
}

/// How often each device failed, by number.
fn counts_of(devices: &MemoryDevices) -> [u64; 11]
    requires { length devices.now.log.items ≡ LOG_STRIPS }
    ensures { result ≡ device_counts ⟦<MemoryStrip as Strip>⟧ ⟦<MemoryShelf as Shelf>⟧ devices.now }
{
    match devices.log.as_slice() {
        [s0, s1, s2, s3, s4, s5, s6, s7] => [
            s0.faults(),
            s1.faults(),
            s2.faults(),
            s3.faults(),
            s4.faults(),
            s5.faults(),
            s6.faults(),
            s7.faults(),
            devices.manifest_a.faults(),
            devices.manifest_b.faults(),
            devices.shelf.faults(),
        ],
        _ => unreachable!(),
    }
}

impl MemoryHost {
    /// A host with these devices, these streams, and no notes yet. It takes no memory.
    pub fn new(
        alloc: Global,
        devices: MemoryDevices,
        source: ByteSource,
        sink: ByteSink,
    ) -> MemoryHost
        requires { AreDevices ⟦<MemoryStrip as Strip>⟧ ⟦<MemoryShelf as Shelf>⟧ devices }
        ensures home { IsAllHome (⟦<MemoryHost as Host>⟧.state result) }
        ensures devices { result.devices.thing ≡ Some devices }
        ensures streams { result.streams.thing ≡ Some (source, sink) }
        ensures notes { result.notes.items ≡ [] }
        ensures device_faults { result.devices.faults
            ≡ total_of (device_counts ⟦<MemoryStrip as Strip>⟧ ⟦<MemoryShelf as Shelf>⟧ devices) }
        ensures stream_faults { result.streams.faults
            ≡ total_of (stream_counts ⟦<ByteSource as Source>⟧ ⟦<ByteSink as Sink>⟧ (source, sink)) }
    {
        let device_faults = counts_of(&devices);
        let stream_faults = [source.faults(), sink.faults()];
        MemoryHost {
            devices: Lending::new(devices, device_faults),
            streams: Lending::new((source, sink), stream_faults),
            notes: Vec::new(alloc),
        }
    }

    /// The devices, while they are at home.
    pub fn at_home(&self) -> Option<&MemoryDevices>
        ensures { option_copied result ≡ self.now.devices.thing }
    {
        self.devices.thing.as_ref()
    }

    /// The devices, if they are at home. The host is over.
    pub fn into_devices(self) -> Option<MemoryDevices>
        ensures { result ≡ self.devices.thing }
    {
        let MemoryHost { devices, .. } = self;
        devices.thing
    }

    /// The bytes that were put, while the streams are at home.
    pub fn output(&self) -> Option<&[u8]>
        ensures { option_copied result ≡ option_map (λ pair. pair.1.bytes) self.now.streams.thing }
    {
        match &self.streams.thing {
            Some((_, sink)) => Some(sink.as_bytes()),
            None => None,
        }
    }

    /// The bytes that were not taken, while the streams are at home.
    pub fn remaining(&self) -> Option<&[u8]>
        ensures { option_copied result ≡ option_map (λ pair. pair.0.bytes) self.now.streams.thing }
    {
        match &self.streams.thing {
            Some((source, _)) => Some(source.remaining()),
            None => None,
        }
    }

    /// The lines that were noted.
    pub fn notes(&self) -> &[u8]
        ensures { result.now ≡ self.now.notes.items }
    {
        self.notes.as_slice()
    }
}

impl Host for MemoryHost {
    type Strip = MemoryStrip;

    type Shelf = MemoryShelf;

    type In = ByteSource;

    type Out = ByteSink;

    ghost state = { λ h. record {
      devices = lent_of (device_bytes ⟦<MemoryStrip as Strip>⟧ ⟦<MemoryShelf as Shelf>⟧)
          h.devices.thing h.devices.counts h.devices.faults;
      streams = lent_of (stream_bytes ⟦<ByteSource as Source>⟧ ⟦<ByteSink as Sink>⟧)
          h.streams.thing h.streams.counts h.streams.faults;
    } };

    ghost strip_leaves = { λ h. StripLeavesHome ⟦<MemoryStrip as Strip>⟧ h.devices.thing };

    ghost shelf_leaves = { λ h. ShelfLeavesHome ⟦<MemoryShelf as Shelf>⟧ h.devices.thing };

    fn devices(
        &mut self,
        _alloc: Global,
        _place: &Place,
    ) -> Result<Devices<MemoryStrip, MemoryShelf>, DeviceError> {
        Ok(self.devices.lend())
    }

    fn give_back(&mut self, devices: Devices<MemoryStrip, MemoryShelf>)
        requires out { IsOut (device_counts ⟦<MemoryStrip as Strip>⟧ ⟦<MemoryShelf as Shelf>⟧ devices)
            (lent_of (device_bytes ⟦<MemoryStrip as Strip>⟧ ⟦<MemoryShelf as Shelf>⟧)
            self.old.devices.thing self.old.devices.counts self.old.devices.faults) }
        requires all { AreDevices ⟦<MemoryStrip as Strip>⟧ ⟦<MemoryShelf as Shelf>⟧ devices }
        ensures home { self.new.devices.thing ≡ Some devices }
        ensures faults { self.new.devices.faults ≡ risen self.old.devices.faults self.old.devices.counts
            (device_counts ⟦<MemoryStrip as Strip>⟧ ⟦<MemoryShelf as Shelf>⟧ devices) }
        ensures streams { self.new.streams ≡ self.old.streams }
    {
        let counts = counts_of(&devices);
        self.devices.take_back(devices, counts);
    }

    fn streams(&mut self) -> (ByteSource, ByteSink) {
        self.streams.lend()
    }

    fn give_streams(&mut self, source: ByteSource, sink: ByteSink) {
        let counts = [source.faults(), sink.faults()];
        self.streams.take_back((source, sink), counts);
    }

    fn note(&mut self, line: &[u8])
        ensures kept { (self.new.devices ≡ self.old.devices) × (self.new.streams ≡ self.old.streams) }
        ensures noted { (self.new.notes.items ≡ self.old.notes.items ++ line.now)
            ⊎ (self.new.notes.items ≡ self.old.notes.items) }
    {
        // Out of memory, the line is lost. No answer waits for it.
        let _ = self.notes.extend_from_slice(line);
    }
}
