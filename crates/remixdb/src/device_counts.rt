ghost use Rattle.std.specs.Prelude.{ℕ, List};

use host_model::Lendable;

/// How often each device of a process failed, by number, when it was handed out or taken back last.
#[derive(Drop)]
pub(crate) struct DeviceCounts {
    pub(crate) counts: [u64; 11],
}

impl Lendable for DeviceCounts {
    ghost counts = { λ d. d.counts };
}
