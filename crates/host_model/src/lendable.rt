ghost use Rattle.std.specs.Prelude.{ℕ, List};
ghost use Rattle.host_model.specs.HostState.{device_counts, stream_counts};

use disk_model::{Devices, Shelf, Strip};
use link_model::{Sink, Source};

/// What a host can lend: several things at once that count their faults.
pub trait Lendable {
    /// The counts, one for each thing.
    ghost counts: { Self → List ℕ };
}

impl<S: Strip + Drop, H: Shelf + Drop> Lendable for Devices<S, H> {
    ghost counts = { device_counts S.Strip H.Shelf };
}

impl<S: Source, K: Sink> Lendable for (S, K) {
    ghost counts = { stream_counts S.Source K.Sink };
}
