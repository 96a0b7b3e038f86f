//! A log of several segments, and how it is opened.
ghost use Rattle.std.specs.Prelude.{◌≡◌, length, IfOk, IfErr};
ghost use Rattle.disk_model.specs.declared.limits.TheConstants.{LOG_STRIPS};
ghost use Rattle.wal_log.specs.LogValues.{AreNumberedFrom, IsContent};
ghost use Rattle.wal_log.specs.Openings.{HasLog, IsLogRefused, AreOfSynced, OpenCause, Numbers};
ghost use Rattle.wal_log.specs.Strips.{AreOnlyRead, AreOpened, OfAllBytes};

use crate::contents::{log_of, numbers_of};
use crate::open_strips::OpenStrips;
use crate::{LogContent, LogError, RawLog};
use disk_model::Strip;
use std::alloc::Global;
use std::marker::PhantomData;

/// A log whose segments stand on eight strips: segment s on the strip s modulo 8.
pub struct Log<S: Strip> {
    on: PhantomData<S>,
}

impl<S: Strip + Drop> Log<S> {
    /// Opens eight strips as a log whose live segments begin with segment `first`: they are that one, the next one and so
    /// on, as long as the strip of each names it. It makes at most three calls of each strip, and writes nothing.
    ///
    /// Refused are, in this order: a torn header, of the lowest strip that has one; a first frame that is no header or
    /// names a segment of another strip, of the lowest strip; then segment by segment a first number that is not the end
    /// of the entries before, and frame by frame a wrong payload or a number that does not follow; last a segment that is
    /// not below `first` and not live, of the lowest strip. The strips come back, without memory.
    pub fn open(
        alloc: Global,
        strips: Vec<S>,
        first: u64,
    ) -> Result<(RawLog<S>, LogContent), (Vec<S>, LogError)>
        requires eight { length strips.items ≡ LOG_STRIPS }

        // The content is what the strips' frames say, and the log keeps its numbers.
        ensures read { IfOk result (λ found. OfAllBytes S.Strip strips.items (HasLog first found.1)) }
        ensures content { IfOk result (λ found. IsContent found.1) }
        ensures numbered { IfOk result (λ found. AreNumberedFrom first found.1.segments) }
        ensures numbers { IfOk result (λ found. Numbers first found.0 found.1) }
        ensures opened { IfOk result (λ found. AreOpened S.Strip strips.items found.0.journals) }

        ensures refused { IfErr result (λ refused. OfAllBytes S.Strip strips.items (IsLogRefused first refused.1)) }
        ensures back { IfErr result (λ refused. AreOnlyRead S.Strip strips.items refused.0.items) }
        ensures synced { IfErr result (λ refused. AreOfSynced S.Strip refused.0.items refused.1) }
        ensures cause { IfErr result
            (λ refused. OpenCause S.Strip strips.items refused.0.items refused.1) }
    {
        let (strips, frames) = OpenStrips::open(alloc, strips)?;
        let content = match log_of(alloc, &frames, first) {
            Ok(content) => content,
            Err(error) => return Err((strips.into_strips(), error)),
        };
        match numbers_of(alloc, &content.segments) {
            Ok(segments) => {
                let raw = RawLog::of(strips, first, &content, segments);
                Ok((raw, content))
            }
            Err(_no_memory) => Err((strips.into_strips(), LogError::Memory)),
        }
    }
}
