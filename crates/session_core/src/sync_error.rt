ghost use Rattle.session_core.specs.Refusals.{IsSyncErrorOf};

use disk_model::{DeviceError, FaultUnit};
use thiserror::Error;

/// Why a sync was refused. What was accepted before it stays.
#[derive(Debug, Drop, Error)]
pub enum SyncError {
    /// A device failed: one unit of its book.
    #[error("{0} failed")]
    DeviceFault(FaultUnit),
    /// There was no memory for the sync.
    #[error("out of memory")]
    Memory,
}

impl From<DeviceError> for SyncError {
    ghost from_gives = { IsSyncErrorOf };

    fn from(error: DeviceError) -> SyncError {
        match error {
            DeviceError::Fault(unit) => SyncError::DeviceFault(unit),
            DeviceError::Memory => SyncError::Memory,
        }
    }
}
