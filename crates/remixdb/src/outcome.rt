ghost use Rattle.std.specs.Prelude.{◌≡◌};
ghost use Rattle.remixdb.specs.Outcomes.{status_of, outcome_of_end, outcome_of_run, outcome_of_failure, outcome_of_refusal};

use disk_model::DeviceError;
use rdb_base::NoMemory;
use session_core::SessionEnd;
use std::alloc::Global;
use store_run::OpenError;

/// What came of a run of the program. Each has a status, and each but the first a line for the notes.
#[derive(Clone, Copy, Debug, PartialEq, Eq)]
pub enum Outcome {
    Done,
    /// A session ended by a bad message, inside a message, or after too many bytes.
    BadMessage,
    /// The words are not in the stated form.
    UnknownWords,
    /// The strip is no journal: a header is torn at this place.
    TornHeader { strip: u8, at: u64 },
    /// The frame at this place of the strip is in no grammar of a log: this is its first wrong byte.
    BadEntry { strip: u8, frame: u64, at: usize },
    /// The log wants one number, and another was found.
    LogGap { want: u64, found: u64 },
    /// A device failed, of all that did the one with the least number.
    DeviceFailed { device: u8 },
    /// A stream failed.
    StreamFailed,
    /// Out of memory, and no reply could say so.
    OutOfMemory,
}

impl Outcome {
    /// What came of a session that ended so.
    fn of_end(end: SessionEnd) -> Outcome
        ensures { result ≡ outcome_of_end end }
    {
        match end {
            SessionEnd::End | SessionEnd::Quit => Outcome::Done,
            SessionEnd::Bad { .. } | SessionEnd::Cut { .. } | SessionEnd::Spent =>
                Outcome::BadMessage,
            SessionEnd::SourceFault | SessionEnd::SinkFault => Outcome::StreamFailed,
            SessionEnd::Memory => Outcome::OutOfMemory,
        }
    }

    /// What came of a run: whether closing was out of memory, the least device of which there is a unit, and how the
    /// session ended.
    pub(crate) fn of_run(short: bool, failed: Option<u8>, end: SessionEnd) -> Outcome
        ensures { result ≡ outcome_of_run short failed end }
    {
        if short || end == SessionEnd::Memory {
            return Outcome::OutOfMemory;
        }
        match failed {
            Some(device) => Outcome::DeviceFailed { device },
            None => Outcome::of_end(end),
        }
    }

    /// What came of devices that were not handed out.
    pub(crate) fn of_failure(error: &DeviceError) -> Outcome
        ensures { result ≡ outcome_of_failure error.now }
    {
        match error {
            DeviceError::Fault(unit) => Outcome::DeviceFailed {
                device: unit.device(),
            },
            DeviceError::Memory => Outcome::OutOfMemory,
        }
    }

    /// What came of an opening that was refused.
    pub(crate) fn of_refusal(error: &OpenError) -> Outcome
        ensures { result ≡ outcome_of_refusal error.now }
    {
        match error {
            OpenError::Device(unit) => Outcome::DeviceFailed {
                device: unit.device(),
            },
            OpenError::TornHeader { strip, at } => Outcome::TornHeader {
                strip: *strip,
                at: *at,
            },
            OpenError::BadEntry { strip, frame, at } => Outcome::BadEntry {
                strip: *strip,
                frame: *frame,
                at: *at,
            },
            OpenError::LogGap { want, found } => Outcome::LogGap {
                want: *want,
                found: *found,
            },
            OpenError::Memory => Outcome::OutOfMemory,
        }
    }

    /// The status that the program ends with.
    pub fn status(self) -> u8
        ensures { result ≡ status_of self }
    {
        match self {
            Outcome::Done => 0,
            Outcome::BadMessage => 1,
            Outcome::UnknownWords => 2,
            Outcome::TornHeader { .. } | Outcome::BadEntry { .. } | Outcome::LogGap { .. } => 3,
            Outcome::DeviceFailed { .. } => 4,
            Outcome::StreamFailed => 5,
            Outcome::OutOfMemory => 6,
        }
    }

    /// Its line for the notes, if it has one with no number in it.
    pub(crate) fn fixed_line(self) -> Option<&'static str> {
        match self {
            Outcome::BadMessage => Some("remixdb: session ended by a bad message\n"),
            Outcome::UnknownWords => Some("remixdb: words are not in the stated form\n"),
            Outcome::StreamFailed => Some("remixdb: stream failed\n"),
            Outcome::OutOfMemory => Some("remixdb: out of memory\n"),
            Outcome::Done | Outcome::DeviceFailed { .. } => None,
            Outcome::TornHeader { .. } | Outcome::BadEntry { .. } | Outcome::LogGap { .. } => None,
        }
    }

    /// Its line for the notes, if it has one with a number in it.
    pub(crate) fn numbered_line(self, alloc: Global) -> Result<Option<String>, NoMemory> {
        let line = match self {
            Outcome::TornHeader { strip, at } => format!(in alloc;
                "remixdb: devices refused: TornHeader strip {strip} at {at}\n"
            )?,
            Outcome::BadEntry { strip, frame, at } => format!(in alloc;
                "remixdb: devices refused: BadEntry strip {strip} frame {frame} at {at}\n"
            )?,
            Outcome::LogGap { want, found } => format!(in alloc;
                "remixdb: devices refused: LogGap want {want} found {found}\n"
            )?,
            Outcome::DeviceFailed { device } => format!(in alloc;
                "remixdb: device {device} failed\n"
            )?,
            Outcome::Done
            | Outcome::BadMessage
            | Outcome::UnknownWords
            | Outcome::StreamFailed
            | Outcome::OutOfMemory => return Ok(None),
        };
        Ok(Some(line))
    }
}
