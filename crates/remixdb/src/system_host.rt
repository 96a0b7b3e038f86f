ghost use Rattle.std.specs.Prelude.{◌≡◌, length, IfOk};
ghost use Rattle.disk_model.specs.declared.limits.TheConstants.{FOLDER, LOG_STRIPS};
ghost use Rattle.disk_model.specs.Facts.{AreDevices};
ghost use Rattle.host_model.specs.Lent.{IsOut, lent_of, taken_back};
ghost use Rattle.host_model.specs.HostState.{LeaveSame, LeavesSame, StripLeaves, ShelfLeaves, device_bytes, device_counts, stream_bytes};
ghost use Rattle.remixdb.specs.System.{real_counts, system_state, untold};

use crate::device_counts::DeviceCounts;
use disk_model::{DeviceError, Devices, FOLDER, FaultBook, Shelf, Strip};
use disk_real::{RealShelf, RealStrip, can_be_folder, real_devices};
use host_model::{Host, Lending, Place};
use link_model::{ReaderSource, Sink, Source, WriterSink, stream_pair};
use rdb_base::NoMemory;
use std::alloc::Global;
use std::io::{ErrorKind, Stderr, Stdin, Stdout, Write};

/// The standard streams of a process, which contracts do not see.
type StdSource = ReaderSource<Stdin, Stdout>;

type StdSink = WriterSink<Stdout>;

/// The devices of a place.
type RealDevices<'a> = Devices<RealStrip<'a, HostRuntime>, RealShelf<'a, HostRuntime>>;

/// The host of a process: devices in memory or in a folder, its standard streams, and standard error for its notes.
/// Contracts see how often the devices failed, and none of their bytes.
#[derive(Drop)]
pub struct SystemHost<'a> {
    rt: &'a HostRuntime,
    /// The devices themselves are made anew for each place.
    devices: Lending<DeviceCounts, 11>,
    /// Counts the folders that cannot be.
    folder: FaultBook,
    streams: Lending<(StdSource, StdSink), 2>,
    notes: Stderr,
    ghost folder_is: { folder.name.device ≡ FOLDER },
}

/// How often each device failed, by number.
fn counts_of<'a>(devices: &RealDevices<'a>) -> [u64; 11]
    requires { length devices.now.log.items ≡ LOG_STRIPS }
    ensures { result ≡ real_counts devices.now }
{
    match devices.log.as_slice() {
        [s0, s1, s2, s3, s4, s5, s6, s7] => [
            s0.faults(),
            s1.faults(),
            s2.faults(),
            s3.faults(),
            s4.faults(),
            s5.faults(),
            s6.faults(),
            s7.faults(),
            devices.manifest_a.faults(),
            devices.manifest_b.faults(),
            devices.shelf.faults(),
        ],
        _ => unreachable!(),
    }
}

impl<'a> SystemHost<'a> {
    ghost use Rattle.disk_model.specs.declared.device_error.DeviceError.TheVariants.{Fault};
    ghost use Rattle.fault_count.specs.Counts.{one_more};
    ghost use Rattle.host_model.specs.HostState.{IsAllHome};

    /// A host over these standard streams, with no fault yet.
    pub fn new(
        alloc: Global,
        rt: &'a HostRuntime,
        stdin: Stdin,
        stdout: Stdout,
        stderr: Stderr,
    ) -> Result<SystemHost<'a>, NoMemory>
        ensures home { IfOk result (λ host. IsAllHome (⟦<SystemHost<'a> as Host>⟧.state host)) }
        ensures none { IfOk result (λ host. (host.devices.faults ≡ 0) × (host.streams.faults ≡ 0)) }
    {
        let pair = stream_pair(alloc, stdin, stdout)?;
        Ok(SystemHost {
            rt,
            devices: Lending::new(DeviceCounts { counts: [0; 11] }, [0; 11]),
            folder: FaultBook::new(alloc, FOLDER)?,
            streams: Lending::new(pair, [0, 0]),
            notes: stderr,
        })
    }

    /// Counts a folder that cannot be.
    fn refuse(&mut self, alloc: Global) -> DeviceError
        ensures fault { result ≡ Fault (record { device = FOLDER }) }
        ensures thing { self.new.devices.thing ≡ self.old.devices.thing }
        ensures counts { self.new.devices.counts ≡ self.old.devices.counts }
        ensures faults { self.new.devices.faults ≡ one_more self.old.devices.faults }
        ensures streams { self.new.streams ≡ self.old.streams }
    {
        self.devices.fail();
        self.folder.fail(alloc)
    }
}

impl<'a> Host for SystemHost<'a> {
    type Strip = RealStrip<'a, HostRuntime>;

    type Shelf = RealShelf<'a, HostRuntime>;

    type In = StdSource;

    type Out = StdSink;

    ghost state = { λ h. record {
      devices = lent_of (λ _. untold) h.devices.thing h.devices.counts h.devices.faults;
      streams = lent_of (stream_bytes ⟦<StdSource as Source>⟧ ⟦<StdSink as Sink>⟧)
          h.streams.thing h.streams.counts h.streams.faults;
    } };

    ghost strip_leaves = { λ h device bytes. ⊥ };

    ghost shelf_leaves = { λ h files. ⊥ };

    fn devices(
        &mut self,
        alloc: Global,
        place: &Place,
    ) -> Result<Devices<RealStrip<'a, HostRuntime>, RealShelf<'a, HostRuntime>>, DeviceError> {
        let folder = match place {
            Place::Memory => None,
            Place::Folder(folder) => {
                if !can_be_folder(self.rt, folder.as_str()) {
                    return Err(self.refuse(alloc));
                }
                Some(folder.as_str())
            }
        };
        let devices = real_devices(alloc, self.rt, folder)?;
        let counts = counts_of(&devices);
        self.devices.replace(DeviceCounts { counts }, counts);
        self.devices.thing = None;
        Ok(devices)
    }

    fn give_back(
        &mut self,
        devices: Devices<RealStrip<'a, HostRuntime>, RealShelf<'a, HostRuntime>>,
    )
        requires out { IsOut (real_counts devices)
            (lent_of (λ _. untold) self.old.devices.thing self.old.devices.counts self.old.devices.faults) }
        requires all { AreDevices ⟦<RealStrip<'a, HostRuntime> as Strip>⟧ ⟦<RealShelf<'a, HostRuntime> as Shelf>⟧ devices }
        ensures back { system_state self.new.devices.thing self.new.devices.counts self.new.devices.faults
            (lent_of (stream_bytes ⟦<StdSource as Source>⟧ ⟦<StdSink as Sink>⟧)
            self.new.streams.thing self.new.streams.counts self.new.streams.faults)
            ≡ record (system_state self.old.devices.thing self.old.devices.counts self.old.devices.faults
            (lent_of (stream_bytes ⟦<StdSource as Source>⟧ ⟦<StdSink as Sink>⟧)
            self.old.streams.thing self.old.streams.counts self.old.streams.faults)) {
              devices = taken_back
                  (device_bytes ⟦<RealStrip<'a, HostRuntime> as Strip>⟧ ⟦<RealShelf<'a, HostRuntime> as Shelf>⟧ devices.entry)
                  (device_counts ⟦<RealStrip<'a, HostRuntime> as Strip>⟧ ⟦<RealShelf<'a, HostRuntime> as Shelf>⟧ devices.entry)
                  (lent_of (λ _. untold) self.old.devices.thing self.old.devices.counts self.old.devices.faults);
            } }
        ensures strip_images { LeaveSame (StripLeaves ⟦<RealStrip<'a, HostRuntime> as Strip>⟧ devices.entry) (λ _ _. ⊥) }
        ensures shelf_images { LeavesSame (ShelfLeaves ⟦<RealShelf<'a, HostRuntime> as Shelf>⟧ devices.entry) (λ _. ⊥) }
    {
        let counts = counts_of(&devices);
        self.devices.take_back(DeviceCounts { counts }, counts);
    }

    fn streams(&mut self) -> (StdSource, StdSink) {
        self.streams.lend()
    }

    fn give_streams(&mut self, source: StdSource, sink: StdSink) {
        let counts = [source.faults(), sink.faults()];
        self.streams.take_back((source, sink), counts);
    }

    fn note(&mut self, line: &[u8]) {
        let _ = self.notes.write_all(line);
    }
}
