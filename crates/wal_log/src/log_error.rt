use disk_model::FaultUnit;
use std::fmt::{self, Display, Formatter};

/// Why a log is refused.
#[derive(Debug, Drop)]
pub enum LogError {
    /// A call of the strip failed: its unit.
    Fault(FaultUnit),
    /// Whole frames end at this place of the strip. An open gate stands there, and no whole frame.
    TornHeader { strip: u8, at: u64 },
    /// The frame whose gate stands at place `frame` of the strip has a wrong payload: the first one is to be a header,
    /// and each other one entries. The first wrong field begins at byte `at` of the payload. It is at byte 1 if a header
    /// names a segment that belongs on another strip.
    BadEntry { strip: u8, frame: u64, at: usize },
    /// The numbers do not follow one another: the next entry was to have the number `want`, but the frame begins with
    /// the number `found`. Or the header is of another segment or names another first entry: then `want` is the first
    /// number that the caller asked for, and `found` the one in the header.
    LogGap { want: u64, found: u64 },
    /// Out of memory.
    Memory,
}

impl Display for LogError {
    fn fmt<W: fmt::Write>(&self, f: &mut Formatter<W>) -> fmt::Result {
        match self {
            LogError::Fault(unit) => write!(f, "device {} failed", unit.device()),
            LogError::TornHeader { strip, at } => write!(f, "TornHeader strip {strip} at {at}"),
            LogError::BadEntry { strip, frame, at } => {
                write!(f, "BadEntry strip {strip} frame {frame} at {at}")
            }
            LogError::LogGap { want, found } => write!(f, "LogGap want {want} found {found}"),
            LogError::Memory => write!(f, "out of memory"),
        }
    }
}
