ghost use Rattle.manifest_core.specs.CommitErrors.{CommitErrorOf};

use disk_model::{DeviceError, FaultUnit};
use thiserror::Error;

/// Why an edition was not committed.
#[derive(Debug, Drop, Error)]
pub enum CommitError {
    /// A call of a strip failed: its unit. The edition may stand, or not; the next commit settles it first.
    #[error("{0} failed")]
    Fault(FaultUnit),
    /// The last edition's next number is 2^62 or more. No device call was made.
    #[error("NumbersSpent {next}")]
    NumbersSpent { next: u64 },
    /// Out of memory.
    #[error("out of memory")]
    Memory,
}

impl From<DeviceError> for CommitError {
    ghost from_gives = { CommitErrorOf };

    fn from(error: DeviceError) -> Self {
        match error {
            DeviceError::Fault(unit) => CommitError::Fault(unit),
            DeviceError::Memory => CommitError::Memory,
        }
    }
}
