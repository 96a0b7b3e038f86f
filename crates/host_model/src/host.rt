//! What a program meets outside itself.
ghost use Rattle.std.specs.Prelude.{◌≡◌, ℕ, List, Option, IfOk, IfErr};
ghost use Rattle.disk_model.specs.Facts.{AreDevices};
ghost use Rattle.host_model.specs.Lent.{AreWithin, IsHome, IsOut, handed_out, taken_back};
ghost use Rattle.host_model.specs.HostState.{HostState, HandsOutNone, LeavesSame, LeaveSame, StripLeaves, ShelfLeaves, device_bytes, device_counts, stream_bytes, stream_counts};

use crate::place::Place;
use disk_model::{DeviceError, Devices, Shelf, Strip};
use link_model::{Sink, Source};
use std::alloc::Global;

/// What hands out a store's devices and a pair of streams and takes them back, and keeps notes.
///
/// Each call says what the host is after it as one equation, so all that the equation does not name
/// stays. A count of faults stands still at 2^64 - 1.
pub trait Host {
    type Strip: Strip + Drop;

    type Shelf: Shelf + Drop;

    type In: Source;

    type Out: Sink;

    /// What contracts see of it.
    ghost state: { Self → HostState };

    /// What a crash may leave of the strips that are at home, by device.
    ghost strip_leaves: { Self → ℕ → List ℕ → Type 0 };

    /// What a crash may leave of the shelf that is at home.
    ghost shelf_leaves: { Self → (ℕ → Option (List ℕ)) → Type 0 };

    /// Hands out the devices of a place.
    fn devices(
        &mut self,
        alloc: Global,
        place: &Place,
    ) -> Result<Devices<Self::Strip, Self::Shelf>, DeviceError>
        requires { IsHome (state self.old).devices }
        ensures bytes { IfOk result (λ devices. (state self.old).devices.home
            ≡ Some (device_bytes Self.Strip.Strip Self.Shelf.Shelf devices)) }
        ensures strip_images { IfOk result (λ devices.
            LeaveSame (strip_leaves self.old) (StripLeaves Self.Strip.Strip devices)) }
        ensures shelf_images { IfOk result (λ devices.
            LeavesSame (shelf_leaves self.old) (ShelfLeaves Self.Shelf.Shelf devices)) }
        ensures all { IfOk result (λ devices. AreDevices Self.Strip.Strip Self.Shelf.Shelf devices) }
        ensures within { IfOk result (λ devices.
            AreWithin (state self.old).devices.faults (device_counts Self.Strip.Strip Self.Shelf.Shelf devices)) }
        ensures lent { IfOk result (λ devices. state self.new ≡ record (state self.old) {
          devices = handed_out (device_counts Self.Strip.Strip Self.Shelf.Shelf devices) (state self.old).devices;
        }) }
        ensures refused { IfErr result (λ error. HandsOutNone error (state self.old) (state self.new)) }
        ensures strips_kept { IfErr result (λ _. LeaveSame (strip_leaves self.old) (strip_leaves self.new)) }
        ensures shelf_kept { IfErr result (λ _. LeavesSame (shelf_leaves self.old) (shelf_leaves self.new)) };

    /// Takes the devices back.
    fn give_back(&mut self, devices: Devices<Self::Strip, Self::Shelf>)
        requires out { IsOut (device_counts Self.Strip.Strip Self.Shelf.Shelf devices) (state self.old).devices }
        requires all { AreDevices Self.Strip.Strip Self.Shelf.Shelf devices }
        ensures back { state self.new ≡ record (state self.old) {
          devices = taken_back (device_bytes Self.Strip.Strip Self.Shelf.Shelf devices)
              (device_counts Self.Strip.Strip Self.Shelf.Shelf devices)
              (state self.old).devices;
        } }
        ensures strip_images { LeaveSame (StripLeaves Self.Strip.Strip devices) (strip_leaves self.new) }
        ensures shelf_images { LeavesSame (ShelfLeaves Self.Shelf.Shelf devices) (shelf_leaves self.new) };

    /// Hands out the streams.
    fn streams(&mut self) -> (Self::In, Self::Out)
        requires { IsHome (state self.old).streams }
        ensures bytes { (state self.old).streams.home ≡ Some (stream_bytes Self.In.Source Self.Out.Sink result) }
        ensures within { AreWithin (state self.old).streams.faults (stream_counts Self.In.Source Self.Out.Sink result) }
        ensures lent { state self.new ≡ record (state self.old) {
          streams = handed_out (stream_counts Self.In.Source Self.Out.Sink result) (state self.old).streams;
        } }
        ensures strips_kept { LeaveSame (strip_leaves self.old) (strip_leaves self.new) }
        ensures shelf_kept { LeavesSame (shelf_leaves self.old) (shelf_leaves self.new) };

    /// Takes the streams back.
    fn give_streams(&mut self, source: Self::In, sink: Self::Out)
        requires { IsOut (stream_counts Self.In.Source Self.Out.Sink (source, sink)) (state self.old).streams }
        ensures back { state self.new ≡ record (state self.old) {
          streams = taken_back (stream_bytes Self.In.Source Self.Out.Sink (source, sink))
              (stream_counts Self.In.Source Self.Out.Sink (source, sink))
              (state self.old).streams;
        } }
        ensures strips_kept { LeaveSame (strip_leaves self.old) (strip_leaves self.new) }
        ensures shelf_kept { LeavesSame (shelf_leaves self.old) (shelf_leaves self.new) };

    /// Notes a line, or loses it. Nothing else changes.
    fn note(&mut self, line: &[u8])
        ensures same { state self.new ≡ state self.old }
        ensures strips_kept { LeaveSame (strip_leaves self.old) (strip_leaves self.new) }
        ensures shelf_kept { LeavesSame (shelf_leaves self.old) (shelf_leaves self.new) };
}
