//! The journal: what it promises before and after each call.
ghost use Rattle.std.specs.Prelude.{◌≡◌, ◌+◌, ◌<◌, ◌≤◌, ◌^◌, true, false, nat_lt, [], ◌∷◌, length, vec_capacity, is_ok, is_err, Ok, IsOk, IfOk, OnOk, OnErr, IfErr};
ghost use Rattle.disk_model.specs.Crashes.{Narrows};
ghost use Rattle.frame_journal.specs.Devices.{SameStrip, CauseIn, OfBytes, KeepsBytes, IsSynced, LeavesNoMore, OfImages, OfCrashes, Spans};
ghost use Rattle.frame_journal.specs.Frames.{IsClosedAt, StandsFor, HasNoTorn, frame_size, end_of};
ghost use Rattle.frame_journal.specs.JournalState.{is_ready, has_staged, is_in_doubt, is_written, closes_gate, staged_frame};
ghost use Rattle.frame_journal.specs.Journals.{standing, with_staged, HasStanding, survivors, HasSurvivors, IsEmptied, Leaves, StandsForNoneOr, StandsWithOrWithout};
ghost use Rattle.frame_journal.specs.Causes.{OpeningCause};
ghost use Rattle.frame_journal.specs.Openings.{TellsTorn, TornIsSynced, strip_of};
ghost use Rattle.frame_journal.specs.declared.format.TheConstants.{FRAMING, END_MAX};
ghost use Rattle.frame_journal.specs.declared.phase.Phase.TheVariants.{Fresh, Shut, Ready, Staged, Body, Gate};

use crate::format::{CLOSED_GATE, END_MAX, FRAMING, PAYLOAD_MAX};
use crate::framing::framed;
use crate::opening::{Found, found_on};
use crate::phase::Phase;
use crate::{Frame, JournalError};
use disk_model::{DeviceError, Strip};
use std::alloc::{AllocError, Global};
use std::marker::Model;
use std::mem;

/// A strip that stands for a list of frames.
#[derive(Drop)]
pub struct Journal<S: Strip> {
    pub(crate) strip: S,
    pub(crate) phase: Phase,
    // The place of the next gate, and what is to be written after it.
    pub(crate) end: u64,
    pub(crate) staged: Vec<u8>,
}

impl<S: Strip> Model for Journal<S> {
    ghost use Rattle.frame_journal.specs.JournalState.{JournalState};
    ghost use Rattle.frame_journal.specs.Journals.{IsSound, unframed};

    ghost Value = { JournalState S };

    ghost view = { λ j. record { strip = j.strip; phase = j.phase; end = j.end; payload = unframed j.staged.items } };

    ghost invariant = { λ j. IsSound (S.tells j.strip) (S.content j.strip) (S.may_leave j.strip) j.phase j.end j.staged.items };
}

impl<S: Strip> Journal<S> {
    /// Opens a strip as a journal: syncs it, reads it once, and leaves its bytes as they were. The frames come in
    /// order. A strip without a frame opens, too, and is not ready until a clear succeeds.
    pub fn open(alloc: Global, mut strip: S) -> Result<(Journal<S>, Vec<Frame>), (S, JournalError)>
        // What the strip stands for, and how far the journal has come.
        ensures frames { IfOk result (λ found. OfBytes S.Strip strip (StandsFor found.1.items)) }
        ensures standing { IfOk result (λ found. HasStanding S.Strip found.0 found.1.items) }
        ensures survivors { IfOk result (λ found. HasSurvivors S.Strip found.0 found.1.items) }
        ensures end { IfOk result (λ found. found.0.end ≡ end_of found.1.items) }
        ensures ready { IfOk result (λ found. is_ready found.0 ≡ nat_lt 0 (length found.1.items)) }
        ensures idle { IfOk result
            (λ found. (has_staged found.0 ≡ false) × (is_in_doubt found.0 ≡ false)) }
        // A closed gate at place 0 is not written again: a first clear begins after it.
        ensures shut { IfOk result (λ found. OfBytes S.Strip strip
            (λ bytes. IsClosedAt bytes 0 → closes_gate found.0 ≡ false)) }

        // A torn header is reported exactly if there is one, and then it is synced; an open journal has none.
        ensures torn { IfErr result (λ refused. OfBytes S.Strip strip (TellsTorn refused.1)) }
        ensures torn_synced { IfErr result (λ refused. TornIsSynced S.Strip refused.0 refused.1) }
        ensures whole { OnOk result (OfBytes S.Strip strip HasNoTorn) }

        // The strip is given back as it was, synced. At each moment a crash leaves what it might have left before.
        ensures strip { SameStrip S.Strip 3 strip (strip_of result) }
        ensures content { KeepsBytes S.Strip strip (strip_of result) }
        ensures images { Narrows (S.may_leave strip) (S.may_leave (strip_of result)) }
        ensures crash { LeavesNoMore S.Strip strip (strip_of result) }
        ensures time { Spans S.Strip strip (strip_of result) }
        ensures synced { OnOk result (IsSynced S.Strip (strip_of result)) }
        ensures cause { IfErr result
            (λ refused. OpeningCause (S.book strip) (S.count strip) (S.count refused.0) refused.1) }
        ensures kept { IfOk result (λ found. S.count found.0.strip ≡ S.count strip) }
        ensures leaves { IfOk result (λ found. Leaves S.Strip found.0) }
    {
        match found_on(alloc, &mut strip) {
            Ok(found) => {
                let Found { frames, phase, end } = found;
                let staged = Vec::new(alloc);
                let journal = Journal {
                    strip,
                    phase,
                    end,
                    staged,
                };
                Ok((journal, frames))
            }
            Err(error) => Err((strip, error)),
        }
    }

    /// Whether a frame was found or a clear succeeded.
    pub fn ready(&self) -> bool
        ensures { result ≡ is_ready self.now }
    {
        !matches!(self.phase, Phase::Fresh | Phase::Shut)
    }

    /// Whether a settle of the staged frame failed.
    pub fn in_doubt(&self) -> bool
        ensures { result ≡ is_in_doubt self.now }
    {
        matches!(self.phase, Phase::Body | Phase::Gate)
    }

    /// Whether a frame is staged that does not surely stand yet.
    pub fn has_staged(&self) -> bool
        ensures { result ≡ has_staged self.now }
    {
        matches!(self.phase, Phase::Staged | Phase::Body | Phase::Gate)
    }

    /// The place of the next gate, in bytes from the strip's start.
    pub fn end(&self) -> u64
        ensures { result ≡ self.now.end }
    {
        self.end
    }

    /// Makes the journal empty and ready, by at most four device calls. If it fails, the journal is not
    /// ready, and the next clear goes on from the phase that failed.
    pub fn clear(&mut self, alloc: Global) -> Result<(), DeviceError>
        requires { has_staged self.old ≡ false }

        // If it succeeds, one byte is left, a closed gate: 00, or the byte that was found there.
        ensures emptied { OnOk result (OfBytes S.Strip self.new.strip IsEmptied) }
        ensures stands { OnOk result (OfBytes S.Strip self.new.strip (StandsFor [])) }
        ensures written { closes_gate self.old ≡ true →
            OnOk result (OfBytes S.Strip self.new.strip (λ bytes. bytes ≡ CLOSED_GATE ∷ [])) }
        ensures synced { OnOk result (IsSynced S.Strip self.new.strip) }
        ensures ready { is_ready self.new ≡ is_ok result }
        ensures end { self.new.end ≡ 0 }
        ensures standing { HasStanding S.Strip self.new [] }
        ensures idle { has_staged self.new ≡ false }

        // Whatever it answers, it leaves no frame, or those that may survive: a ready journal's own.
        ensures either { OfBytes S.Strip self.new.strip
            (StandsForNoneOr (survivors S.Strip self.old)) }
        ensures own { is_ready self.old ≡ true →
            HasSurvivors S.Strip self.old (standing S.Strip self.old) }

        // At each moment within it a crash leaves no frame, or those that may survive; if it succeeds, none.
        ensures crash { OfCrashes S.Strip self.old.strip self.new.strip
            (StandsForNoneOr (survivors S.Strip self.old)) }
        ensures left { OnOk result (OfImages S.Strip self.new.strip (StandsFor [])) }
        ensures leaves { Leaves S.Strip self.new }
        ensures time { Spans S.Strip self.old.strip self.new.strip }

        // If it fails, the next one goes on from the phase that failed, with the same frames.
        ensures goes_on { OnErr result (closes_gate self.new ≡ true → closes_gate self.old ≡ true) }
        ensures first { OnErr result (closes_gate self.new ≡ true →
            S.calls self.new.strip ≤ S.calls self.old.strip + 2) }
        ensures same { OnErr result (closes_gate self.new ≡ true →
            HasSurvivors S.Strip self.new (survivors S.Strip self.old)) }

        ensures strip { SameStrip S.Strip 4 self.old.strip self.new.strip }
        ensures second { closes_gate self.old ≡ false →
            S.calls self.new.strip ≤ S.calls self.old.strip + 2 }
        ensures cause { CauseIn S.Strip self.old.strip self.new.strip result }
    {
        self.begin_clear();
        if let Phase::Fresh = self.phase {
            self.close_first_gate(alloc)?;
        }
        let result = self.cut_after_gate(alloc);
        self.leaves();
        result
    }

    /// Stages a frame with this payload. It makes room for the length and the next gate in the
    /// payload's own memory, and no device call. If the journal's end would pass 2^63, the answer is
    /// out of memory, too; else only if the payload has no room and there is no memory.
    pub fn stage(&mut self, _alloc: Global, payload: Vec<u8>) -> Result<(), (Vec<u8>, AllocError)>
        requires ready { is_ready self.old ≡ true }
        requires idle { has_staged self.old ≡ false }
        requires some { 1 ≤ length payload.items }
        requires most { length payload.items ≤ PAYLOAD_MAX }

        ensures staged { OnOk result ((has_staged self.new ≡ true) × (is_in_doubt self.new ≡ false)) }
        ensures payload { OnOk result (self.new.payload ≡ payload.items) }
        ensures ready { is_ready self.new ≡ true }
        ensures strip { self.new.strip ≡ self.old.strip }
        ensures end { self.new.end ≡ self.old.end }
        ensures within { OnOk result (self.old.end + FRAMING + length payload.items ≤ END_MAX) }
        ensures room { self.old.end + FRAMING + length payload.items ≤ END_MAX →
            length payload.items + FRAMING ≤ vec_capacity payload → IsOk result }
        ensures refused { IfErr result (λ refused. refused.0.items ≡ payload.items) }
        ensures same { OnErr result (self.new ≡ self.old) }
        ensures leaves { Leaves S.Strip self.new }
    {
        if END_MAX - self.end < (FRAMING + payload.len()) as u64 {
            return Err((payload, AllocError));
        }
        self.staged = framed(payload)?;
        self.phase = Phase::Staged;
        Ok(())
    }

    /// The memory of the frame that was settled last, emptied: the next payload, gathered there, needs
    /// none of its own.
    pub fn take_room(&mut self, alloc: Global) -> Vec<u8>
        requires { has_staged self.old ≡ false }
        ensures empty { result.items ≡ [] }
        ensures same { self.new ≡ self.old }
    {
        mem::replace(&mut self.staged, Vec::new(alloc))
    }

    /// Makes the staged frame stand, once, by at most four device calls, and takes no memory of its
    /// own. If it fails, the frame is kept and in doubt, and the next settle goes on from the
    /// phase that failed. With nothing staged it succeeds and makes no call.
    pub fn settle(&mut self, alloc: Global) -> Result<(), DeviceError>
        ensures nothing { has_staged self.old ≡ false → (result ≡ Ok tt) × (self.new ≡ self.old) }

        // If it succeeds, the frame stands after those from before.
        ensures settled { OnOk result (has_staged self.old ≡ true →
            OfBytes S.Strip self.new.strip (StandsFor (with_staged S.Strip self.old))) }
        ensures standing { OnOk result (has_staged self.old ≡ true →
            HasStanding S.Strip self.new (with_staged S.Strip self.old)) }
        ensures end { OnOk result (has_staged self.old ≡ true →
            self.new.end ≡ self.old.end + frame_size (staged_frame self.old)) }
        ensures idle { has_staged self.new ≡ is_err result }
        ensures synced { OnOk result (has_staged self.old ≡ true →
            IsSynced S.Strip self.new.strip) }
        ensures ready { is_ready self.new ≡ is_ready self.old }

        // At each moment within it a crash leaves the frames from before, with the new one or without.
        ensures crash { has_staged self.old ≡ true →
            OfCrashes S.Strip self.old.strip self.new.strip (StandsWithOrWithout S.Strip self.old) }
        ensures left { OnOk result (has_staged self.old ≡ true →
            OfImages S.Strip self.new.strip (StandsFor (with_staged S.Strip self.old))) }
        ensures leaves { Leaves S.Strip self.new }
        ensures time { Spans S.Strip self.old.strip self.new.strip }

        // If it fails, it leaves the frames from before, with the new one or without, and keeps it.
        ensures doubt { is_in_doubt self.new ≡ is_err result }
        ensures either { has_staged self.old ≡ true →
            OfBytes S.Strip self.new.strip (StandsWithOrWithout S.Strip self.old) }
        ensures kept { OnErr result (staged_frame self.new ≡ staged_frame self.old) }
        ensures before { OnErr result (HasStanding S.Strip self.new (standing S.Strip self.old)) }
        ensures goes_on { OnErr result (is_written self.old ≡ true → is_written self.new ≡ true) }
        ensures first { OnErr result (is_written self.new ≡ false →
            S.calls self.new.strip ≤ S.calls self.old.strip + 2) }

        ensures strip { SameStrip S.Strip 4 self.old.strip self.new.strip }
        ensures second { is_written self.old ≡ true →
            S.calls self.new.strip ≤ S.calls self.old.strip + 2 }
        ensures cause { CauseIn S.Strip self.old.strip self.new.strip result }
    {
        match self.phase {
            Phase::Fresh | Phase::Shut | Phase::Ready => Ok(()),
            Phase::Staged | Phase::Body => {
                self.write_body(alloc)?;
                let result = self.open_gate(alloc);
                self.leaves();
                result
            }
            Phase::Gate => {
                let result = self.open_gate(alloc);
                self.leaves();
                result
            }
        }
    }

    /// Hands out what the journal's strip stands for, as a read gives it and in each crash image. It does nothing.
    pub fn leaves(&self)
        ensures { Leaves S.Strip self.now }
    {
        let _ = &self.strip;
    }

    /// The strip as it stands. Where the journal is ready and nothing is staged, it stands for the journal's frames.
    pub fn into_strip(self) -> S
        ensures strip { result ≡ self.strip }
        ensures stands { is_ready self ≡ true → has_staged self ≡ false → OfBytes S.Strip result (StandsFor (standing S.Strip self)) }
        ensures leaves { Leaves S.Strip self }
    {
        let Journal { strip, .. } = self;
        strip
    }
}
