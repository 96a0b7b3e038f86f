//! The strips of a log as journals: how they are opened, and how they are given back.
ghost use Rattle.std.specs.Prelude.{◌≡◌, ◌+◌, ◌++◌, ◌≤◌, [], length, map, reverse, vec_len, vec_capacity, IfOk, IfErr};
ghost use Rattle.disk_model.specs.declared.limits.TheConstants.{LOG_STRIPS};
ghost use Rattle.wal_log.specs.Openings.{IsTornFirst, AreOfSynced, OpenCause};
ghost use Rattle.wal_log.specs.Strips.{AreOnlyRead, AreRead, OfAllBytes, strip_in};

use crate::LogError;
use crate::segment::told_of;
use crate::strip_frames::StripFrames;
use disk_model::{LOG_STRIPS, Strip};
use frame_journal::Journal;
use rdb_base::NoMemory;
use std::alloc::Global;
use std::marker::Model;

/// The strips of a log as journals, in order, and the emptied list in which they came: they go back into it, which takes
/// no memory.
#[derive(Drop)]
pub(crate) struct OpenStrips<S: Strip> {
    journals: Vec<Journal<S>>,
    emptied: Vec<S>,
}

impl<S: Strip> Model for OpenStrips<S> {
    ghost use Rattle.std.specs.Prelude.{◌≡◌, ◌≤◌, List, [], vec_len, vec_capacity};
    ghost use Rattle.frame_journal.specs.JournalState.{JournalState};

    ghost Value = { List (JournalState S) };

    ghost view = { λ o. o.journals.items };

    ghost invariant = { λ o. (o.emptied.items ≡ []) × (vec_len o.journals ≤ vec_capacity o.emptied) };
}

impl<S: Strip + Drop> OpenStrips<S> {
    /// Opens each strip as a journal, in order, up to the first one that is refused. The strips come back in order.
    pub(crate) fn open(
        alloc: Global,
        strips: Vec<S>,
    ) -> Result<(OpenStrips<S>, Vec<StripFrames>), (Vec<S>, LogError)>
        requires eight { length strips.items ≡ LOG_STRIPS }
        ensures read { IfOk result (λ opened. AreRead S.Strip strips.items opened.0 opened.1.items) }
        ensures torn { IfErr result (λ refused. OfAllBytes S.Strip strips.items (IsTornFirst refused.1)) }
        ensures back { IfErr result (λ refused. AreOnlyRead S.Strip strips.items refused.0.items) }
        ensures synced { IfErr result (λ refused. AreOfSynced S.Strip refused.0.items refused.1) }
        ensures cause { IfErr result
            (λ refused. OpenCause S.Strip strips.items refused.0.items refused.1) }
    {
        let mut strips = strips;
        let Ok((journals, frames)) = room_for(alloc, &mut strips) else {
            return Err((strips, LogError::Memory));
        };
        let (mut journals, mut frames) = (journals, frames);
        strips.reverse();
        'strips: while let Some(strip) = strips.pop() {
            match Journal::open(alloc, strip) {
                Ok((journal, found)) => {
                    journals.push_reserved(journal);
                    frames.push_reserved(StripFrames { frames: found });
                }
                Err((strip, error)) => {
                    let error = told_of(journals.len() as u64, error);
                    strips.push_reserved(strip);
                    return Err((given_back(journals, strips), error));
                }
            }
        }
        let opened = OpenStrips {
            journals,
            emptied: strips,
        };
        Ok((opened, frames))
    }

    /// The strips in order. It takes no memory.
    pub(crate) fn into_strips(self) -> Vec<S>
        ensures { result.items ≡ map strip_in self }
    {
        let OpenStrips { journals, emptied } = self;
        given_back(journals, emptied)
    }
}

/// Room for the journals and the frames of all strips, and for the strips when they come back.
fn room_for<S: Strip + Drop>(
    alloc: Global,
    strips: &mut Vec<S>,
) -> Result<(Vec<Journal<S>>, Vec<StripFrames>), NoMemory>
    requires eight { length strips.old.items ≡ LOG_STRIPS }
    ensures same { strips.new.items ≡ strips.old.items }
    ensures strips { IfOk result (λ x. vec_len strips.new ≤ vec_capacity strips.new) }
    ensures empty { IfOk result (λ x. (x.0.items ≡ []) × (x.1.items ≡ [])) }
    ensures room { IfOk result
        (λ x. (vec_len strips.new ≤ vec_capacity x.0) × (vec_len strips.new ≤ vec_capacity x.1)) }
{
    strips.reserve(0)?;
    let journals = Vec::with_capacity(alloc, LOG_STRIPS)?;
    let frames = Vec::with_capacity(alloc, LOG_STRIPS)?;
    Ok((journals, frames))
}

/// The strips of these journals, and those after them, which lie in a list from the last one on.
fn given_back<S: Strip + Drop>(journals: Vec<Journal<S>>, after: Vec<S>) -> Vec<S>
    requires room { vec_len journals + vec_len after ≤ vec_capacity after }
    ensures { result.items ≡ map strip_in journals.items ++ reverse after.items }
{
    let (mut journals, mut strips) = (journals, after);
    'journals: while let Some(journal) = journals.pop() {
        strips.push_reserved(journal.into_strip());
    }
    strips.reverse();
    strips
}
