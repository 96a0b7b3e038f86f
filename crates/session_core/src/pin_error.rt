use disk_model::FaultUnit;
use thiserror::Error;

/// Why a pin was refused. No version is then kept.
#[derive(Debug, Drop, Error)]
pub enum PinError {
    /// A compaction was needed, and has no number left: its next would be this one.
    #[error("a compaction has no number from {next} on")]
    NumbersSpent { next: u64 },
    /// A device failed: one unit of its book.
    #[error("{0} failed")]
    DeviceFault(FaultUnit),
    /// There was no memory for the pin.
    #[error("out of memory")]
    Memory,
}
