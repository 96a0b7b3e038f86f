ghost use Rattle.store_run.specs.Openings.{IsOpenErrorOf, IsDeviceErrorOf};

use disk_model::{DeviceError, FaultUnit};
use thiserror::Error;
use wal_log::LogError;

/// Why a store is not opened.
#[derive(Debug, Drop, Error)]
pub enum OpenError {
    /// A call of a device failed: one unit of its book.
    #[error("{0} failed")]
    Device(FaultUnit),
    /// Whole frames end at this place of the strip. An open gate stands there, and no whole frame.
    #[error("TornHeader strip {strip} at {at}")]
    TornHeader { strip: u8, at: u64 },
    /// The frame whose gate stands at place `frame` of the strip has a wrong payload. Its first wrong field begins at
    /// byte `at` of the payload.
    #[error("BadEntry strip {strip} frame {frame} at {at}")]
    BadEntry { strip: u8, frame: u64, at: usize },
    /// The next entry was to have the number `want`, but the number `found` is there.
    #[error("LogGap want {want} found {found}")]
    LogGap { want: u64, found: u64 },
    /// Out of memory.
    #[error("out of memory")]
    Memory,
}

impl From<LogError> for OpenError {
    ghost from_gives = { IsOpenErrorOf };

    fn from(error: LogError) -> OpenError {
        match error {
            LogError::Fault(unit) => OpenError::Device(unit),
            LogError::TornHeader { strip, at } => OpenError::TornHeader { strip, at },
            LogError::BadEntry { strip, frame, at } => OpenError::BadEntry { strip, frame, at },
            LogError::LogGap { want, found } => OpenError::LogGap { want, found },
            LogError::Memory => OpenError::Memory,
        }
    }
}

impl From<DeviceError> for OpenError {
    ghost from_gives = { IsDeviceErrorOf };

    fn from(error: DeviceError) -> OpenError {
        match error {
            DeviceError::Fault(unit) => OpenError::Device(unit),
            DeviceError::Memory => OpenError::Memory,
        }
    }
}
