//! The two phases of a clear: the gate at place 0 is closed, then what is after it is cut off.
ghost use Rattle.std.specs.Prelude.{◌≡◌, true, false, [], ◌∷◌, take, OnOk, OnErr, if◌then◌else◌};
ghost use Rattle.frame_journal.specs.Devices.{SameStrip, CauseIn, OfBytes, IsSynced, OfCrashes, Spans};
ghost use Rattle.frame_journal.specs.Frames.{StandsFor};
ghost use Rattle.frame_journal.specs.JournalState.{is_ready, has_staged, closes_gate};
ghost use Rattle.frame_journal.specs.Journals.{standing, covered, HasSurvivors, IsEmptied, StandsForNoneOr};
ghost use Rattle.frame_journal.specs.declared.phase.Phase.TheVariants.{Fresh, Shut, Ready};

use crate::Journal;
use crate::format::CLOSED_GATE;
use crate::phase::Phase;
use crate::synced::{cut_synced, write_synced};
use disk_model::{DeviceError, Strip};
use std::alloc::Global;

impl<S: Strip> Journal<S> {
    /// Begins a clear, or goes on with it: from here on the journal is not ready.
    pub(crate) fn begin_clear(&mut self)
        requires { has_staged self.old ≡ false }
        ensures strip { self.new.strip ≡ self.old.strip }
        ensures phase { self.new.phase ≡ (if closes_gate self.old then Fresh else Shut) }
        ensures end { self.new.end ≡ 0 }
        ensures payload { self.new.payload ≡ [] }
        ensures own { is_ready self.old ≡ true →
            HasSurvivors S.Strip self.old (standing S.Strip self.old) }
    {
        if let Phase::Ready = self.phase {
            // With no frame, the gate at place 0 is closed and synced: a write there could open an
            // old frame again.
            self.phase = if self.end == 0 {
                Phase::Shut
            } else {
                Phase::Fresh
            };
            self.end = 0;
        }
    }

    /// The first phase of a clear: no frame stands after a closed gate.
    pub(crate) fn close_first_gate(&mut self, alloc: Global) -> Result<(), DeviceError>
        requires { self.old.phase ≡ Fresh }

        ensures closed { OnOk result (self.new.phase ≡ Shut) }
        ensures gate { OnOk result
            (OfBytes S.Strip self.new.strip (λ bytes. take 1 bytes ≡ CLOSED_GATE ∷ [])) }
        ensures again { OnErr result (self.new.phase ≡ Fresh) }
        ensures same { OnErr result
            (OfBytes S.Strip self.new.strip (λ bytes. covered bytes ≡ covered (S.content self.old.strip))) }
        ensures end { self.new.end ≡ 0 }
        ensures either { OfBytes S.Strip self.new.strip
            (StandsForNoneOr (covered (S.content self.old.strip))) }
        ensures synced { OnOk result (IsSynced S.Strip self.new.strip) }
        ensures crash { OfCrashes S.Strip self.old.strip self.new.strip
            (StandsForNoneOr (covered (S.content self.old.strip))) }
        ensures time { Spans S.Strip self.old.strip self.new.strip }

        ensures strip { SameStrip S.Strip 2 self.old.strip self.new.strip }
        ensures cause { CauseIn S.Strip self.old.strip self.new.strip result }
    {
        write_synced(alloc, &mut self.strip, 0, &[CLOSED_GATE])?;
        self.phase = Phase::Shut;
        Ok(())
    }

    /// The second phase of a clear: what is after the closed gate is gone.
    pub(crate) fn cut_after_gate(&mut self, alloc: Global) -> Result<(), DeviceError>
        requires { self.old.phase ≡ Shut }

        ensures ready { OnOk result (self.new.phase ≡ Ready) }
        ensures again { OnErr result (self.new.phase ≡ Shut) }
        ensures end { self.new.end ≡ 0 }
        ensures emptied { OnOk result (OfBytes S.Strip self.new.strip IsEmptied) }
        ensures cut { OnOk result
            (OfBytes S.Strip self.new.strip (λ bytes. bytes ≡ take 1 (S.content self.old.strip))) }
        ensures synced { OnOk result (IsSynced S.Strip self.new.strip) }
        ensures none { OfBytes S.Strip self.new.strip (StandsFor []) }
        ensures crash { OfCrashes S.Strip self.old.strip self.new.strip (StandsFor []) }
        ensures time { Spans S.Strip self.old.strip self.new.strip }

        ensures strip { SameStrip S.Strip 2 self.old.strip self.new.strip }
        ensures cause { CauseIn S.Strip self.old.strip self.new.strip result }
    {
        cut_synced(alloc, &mut self.strip, 1)?;
        self.phase = Phase::Ready;
        Ok(())
    }
}
