//! How an edition gets to the strips, one function a step.
ghost use Rattle.std.specs.Prelude.{◌≡◌, ◌⊎◌, ◌+◌, ◌<◌, ◌≤◌, Bool, true, false, not, Ok, Err, OnOk, OnErr, IfErr, if◌then◌else◌};
ghost use Rattle.rdb_base.specs.declared.limits.TheConstants.{NUMBER_MAX};
ghost use Rattle.frame_journal.specs.JournalState.{is_ready, has_staged};
ghost use Rattle.edition_code.specs.Editions.{IsEdition};
ghost use Rattle.manifest_core.specs.declared.commit_error.CommitError.TheVariants.{NumbersSpent};
ghost use Rattle.manifest_core.specs.Manifests.{HasEdition, HasOne};
ghost use Rattle.manifest_core.specs.ManifestState.{first_strip, second_strip};
ghost use Rattle.manifest_core.specs.Pairs.{StandNow, PairCalls};
ghost use Rattle.manifest_core.specs.Commits.{CommitCrashes, IsStopped, CommitCause, StepCause, CountsStay};
ghost use Rattle.manifest_core.specs.Steps.{is_full, is_full_settled, IsTurn};

use crate::limits::STRIP_FULL;
use crate::told::settle_told;
use crate::{CommitError, Manifest};
use disk_model::{DeviceError, Strip};
use edition_code::{Edition, encode_edition};
use rdb_base::{NUMBER_MAX, NoMemory};
use std::alloc::{AllocError, Global};
use std::mem;
use std::snapshot::Snapshot;

impl<S: Strip> Manifest<S> {
    /// Makes the strips stand for this edition, by at most twelve device calls. After a refusal the edition may stand, or
    /// not; then it is in doubt, and the next commit settles it first.
    pub fn commit(&mut self, alloc: Global, edition: Edition) -> Result<(), CommitError>
        requires grammar { IsEdition edition }
        requires above { self.old.newest.number < edition.number }

        // If it succeeds, the edition is the last one, and nothing is in doubt.
        ensures last { OnOk result (self.new.last ≡ edition) }
        ensures stands { OnOk result ((self.new.stands ≡ edition) × (self.new.newest ≡ edition)) }
        ensures idle { OnOk result (has_staged self.new.current ≡ false) }
        ensures turns { OnOk result (self.new.on_second
            ≡ (if is_full_settled self.old.current then not self.old.on_second else self.old.on_second)) }
        // Unless the current strip is full or not ready, the other one is left alone.
        ensures untouched { is_full_settled self.old.current ≡ false →
            (self.new.other ≡ self.old.other) × (self.new.on_second ≡ self.old.on_second) }
        // If it fails, the last one stays. This one can be in doubt only once the one that was is settled.
        ensures kept { OnErr result (self.new.last ≡ self.old.last) }
        ensures stood { OnErr result (IsStopped self.old self.new edition) }
        // It comes to nothing exactly where no number is left.
        ensures spent { NUMBER_MAX ≤ self.old.last.next →
            (result ≡ Err (NumbersSpent self.old.last.next)) × (self.new ≡ self.old) }
        ensures cause { IfErr result
            (CommitCause S.Strip self.old (first_strip self.new) (second_strip self.new)) }
        ensures counts { OnOk result (CountsStay S.Strip (first_strip self.old) (second_strip self.old)
            (first_strip self.new) (second_strip self.new)) }

        // If it succeeds, the strips and each crash image stand for it. Else they stand for what surely stands, or for
        // the one in doubt. So they do at each moment within the call.
        ensures whole { OnOk result
            (StandNow S.Strip (first_strip self.new) (second_strip self.new) (HasEdition edition)) }
        ensures left { StandNow S.Strip (first_strip self.new) (second_strip self.new)
            (HasOne self.new.stands self.new.newest) }
        ensures crash { CommitCrashes S.Strip self.old self.new edition }
    {
        let next = self.last.next;
        if next >= NUMBER_MAX {
            self.tell_images();
            return Err(CommitError::NumbersSpent { next });
        }
        let written = self.write(alloc, &edition);
        self.tell_images();
        written?;
        self.last = edition;
        Ok(())
    }

    /// Settles the frame in doubt, then makes this edition stand.
    fn write(&mut self, alloc: Global, edition: &Edition) -> Result<(), DeviceError>
        requires grammar { IsEdition edition.now }
        requires above { self.old.newest.number < edition.now.number }
        ensures stands { OnOk result ((self.new.stands ≡ edition.now) × (self.new.newest ≡ edition.now)) }
        ensures idle { OnOk result (has_staged self.new.current ≡ false) }
        ensures turns { OnOk result (self.new.on_second
            ≡ (if is_full_settled self.old.current then not self.old.on_second else self.old.on_second)) }
        ensures untouched { is_full_settled self.old.current ≡ false →
            (self.new.other ≡ self.old.other) × (self.new.on_second ≡ self.old.on_second) }
        ensures last { self.new.last ≡ self.old.last }
        ensures stood { OnErr result (IsStopped self.old self.new edition.now) }
        ensures cause { IfErr result (StepCause S.Strip (first_strip self.old) (second_strip self.old)
            (first_strip self.new) (second_strip self.new)) }
        ensures counts { OnOk result (CountsStay S.Strip (first_strip self.old) (second_strip self.old)
            (first_strip self.new) (second_strip self.new)) }
        ensures crash { CommitCrashes S.Strip self.old self.new edition.now }
    {
        self.settle(alloc)?;
        self.write_next(alloc, edition)
    }

    /// Makes the edition that is in doubt stand, if there is one, by at most four device calls; `last` stays. After it a
    /// commit finds nothing in doubt.
    pub fn settle(&mut self, alloc: Global) -> Result<(), DeviceError>
        ensures stands { OnOk result ((self.new.stands ≡ self.old.newest) × (has_staged self.new.current ≡ false)) }
        ensures kept { OnErr result (self.new.stands ≡ self.old.stands) }
        ensures newest { self.new.newest ≡ self.old.newest }
        ensures last { self.new.last ≡ self.old.last }
        ensures other { (self.new.other ≡ self.old.other) × (self.new.on_second ≡ self.old.on_second) }
        ensures full { OnOk result (is_full self.new.current ≡ is_full_settled self.old.current) }
        ensures nothing { has_staged self.old.current ≡ false → (result ≡ Ok tt) × (self.new ≡ self.old) }
        ensures cause { IfErr result (StepCause S.Strip (first_strip self.old) (second_strip self.old)
            (first_strip self.new) (second_strip self.new)) }
        ensures counts { OnOk result (CountsStay S.Strip (first_strip self.old) (second_strip self.old)
            (first_strip self.new) (second_strip self.new)) }
        ensures calls { PairCalls S.Strip 4 (first_strip self.old) (second_strip self.old)
            (first_strip self.new) (second_strip self.new) (HasOne self.old.stands self.old.newest) }
    {
        self.tell_images();
        if !self.current.has_staged() {
            return Ok(());
        }
        self.settle_staged(alloc)
    }

    /// Makes the frame that is staged or in doubt stand.
    fn settle_staged(&mut self, alloc: Global) -> Result<(), DeviceError>
        requires { has_staged self.old.current ≡ true }
        ensures stands { OnOk result ((self.new.stands ≡ self.old.newest) × (has_staged self.new.current ≡ false)) }
        ensures kept { OnErr result (self.new.stands ≡ self.old.stands) }
        ensures newest { self.new.newest ≡ self.old.newest }
        ensures last { self.new.last ≡ self.old.last }
        ensures other { (self.new.other ≡ self.old.other) × (self.new.on_second ≡ self.old.on_second) }
        ensures full { OnOk result (is_full self.new.current ≡ is_full_settled self.old.current) }
        ensures cause { IfErr result (StepCause S.Strip (first_strip self.old) (second_strip self.old)
            (first_strip self.new) (second_strip self.new)) }
        ensures counts { OnOk result (CountsStay S.Strip (first_strip self.old) (second_strip self.old)
            (first_strip self.new) (second_strip self.new)) }
        ensures calls { PairCalls S.Strip 4 (first_strip self.old) (second_strip self.old)
            (first_strip self.new) (second_strip self.new) (HasOne self.old.stands self.old.newest) }
    {
        self.other.leaves();
        self.current.settle(alloc)?;
        settle_told(&mut self.stands, &mut self.doubt);
        Ok(())
    }

    /// Makes this edition stand, where nothing is staged: on the current strip, or on the other one if that is full.
    fn write_next(&mut self, alloc: Global, edition: &Edition) -> Result<(), DeviceError>
        requires idle { has_staged self.old.current ≡ false }
        requires grammar { IsEdition edition.now }
        requires above { self.old.stands.number < edition.now.number }
        ensures stands { OnOk result ((self.new.stands ≡ edition.now) × (self.new.newest ≡ edition.now)) }
        ensures idle { OnOk result (has_staged self.new.current ≡ false) }
        ensures turns { OnOk result (self.new.on_second
            ≡ (if is_full self.old.current then not self.old.on_second else self.old.on_second)) }
        ensures untouched { is_full self.old.current ≡ false →
            (self.new.other ≡ self.old.other) × (self.new.on_second ≡ self.old.on_second) }
        ensures last { self.new.last ≡ self.old.last }
        ensures stood { OnErr result (self.new.stands ≡ self.old.stands) }
        ensures newest { OnErr result
            ((self.new.newest ≡ self.old.newest) ⊎ (self.new.newest ≡ edition.now)) }
        ensures cause { IfErr result (StepCause S.Strip (first_strip self.old) (second_strip self.old)
            (first_strip self.new) (second_strip self.new)) }
        ensures counts { OnOk result (CountsStay S.Strip (first_strip self.old) (second_strip self.old)
            (first_strip self.new) (second_strip self.new)) }
        ensures calls { PairCalls S.Strip 8 (first_strip self.old) (second_strip self.old)
            (first_strip self.new) (second_strip self.new) (HasOne self.old.stands edition.now) }
    {
        self.make_current(alloc)?;
        self.stage(alloc, edition)?;
        self.settle(alloc)
    }

    /// Where the current strip is full or not ready, clears the other one, which then becomes the current one.
    fn make_current(&mut self, alloc: Global) -> Result<(), DeviceError>
        requires { has_staged self.old.current ≡ false }
        ensures ready { OnOk result (is_ready self.new.current ≡ true) }
        ensures idle { has_staged self.new.current ≡ false }
        ensures stands { (self.new.stands ≡ self.old.stands) × (self.new.newest ≡ self.old.newest) }
        ensures last { self.new.last ≡ self.old.last }
        ensures untouched { is_full self.old.current ≡ false →
            (self.new.other ≡ self.old.other) × (self.new.on_second ≡ self.old.on_second) }
        ensures turns { OnOk result (IsTurn (is_full self.old.current) self.old self.new) }
        ensures refused { OnErr result ((self.new.current ≡ self.old.current) × (self.new.on_second ≡ self.old.on_second)) }
        ensures cause { IfErr result (StepCause S.Strip (first_strip self.old) (second_strip self.old)
            (first_strip self.new) (second_strip self.new)) }
        ensures counts { OnOk result (CountsStay S.Strip (first_strip self.old) (second_strip self.old)
            (first_strip self.new) (second_strip self.new)) }
        ensures calls { PairCalls S.Strip 4 (first_strip self.old) (second_strip self.old)
            (first_strip self.new) (second_strip self.new) (HasEdition self.old.stands) }
    {
        self.tell_images();
        if !self.is_full() {
            return Ok(());
        }
        self.turn(alloc)
    }

    /// Whether the current strip is full or not ready.
    fn is_full(&self) -> bool
        ensures { result ≡ is_full self.now.current }
    {
        !self.current.ready() || self.current.end() >= STRIP_FULL
    }

    /// Clears the other strip, which then becomes the current one.
    fn turn(&mut self, alloc: Global) -> Result<(), DeviceError>
        requires full { is_full self.old.current ≡ true }
        requires idle { has_staged self.old.current ≡ false }
        ensures ready { OnOk result (is_ready self.new.current ≡ true) }
        ensures idle { has_staged self.new.current ≡ false }
        ensures stands { (self.new.stands ≡ self.old.stands) × (self.new.newest ≡ self.old.newest) }
        ensures last { self.new.last ≡ self.old.last }
        ensures turns { OnOk result (IsTurn true self.old self.new) }
        ensures refused { OnErr result ((self.new.current ≡ self.old.current) × (self.new.on_second ≡ self.old.on_second)) }
        ensures cause { IfErr result (StepCause S.Strip (first_strip self.old) (second_strip self.old)
            (first_strip self.new) (second_strip self.new)) }
        ensures counts { OnOk result (CountsStay S.Strip (first_strip self.old) (second_strip self.old)
            (first_strip self.new) (second_strip self.new)) }
        ensures calls { PairCalls S.Strip 4 (first_strip self.old) (second_strip self.old)
            (first_strip self.new) (second_strip self.new) (HasEdition self.old.stands) }
    {
        self.current.leaves();
        self.other.clear(alloc)?;
        mem::swap(&mut self.current, &mut self.other);
        self.on_second = !self.on_second;
        Ok(())
    }

    /// Stages this edition on the current strip.
    fn stage(&mut self, alloc: Global, edition: &Edition) -> Result<(), NoMemory>
        requires ready { is_ready self.old.current ≡ true }
        requires idle { has_staged self.old.current ≡ false }
        requires grammar { IsEdition edition.now }
        requires above { self.old.stands.number < edition.now.number }
        ensures staged { OnOk result (has_staged self.new.current ≡ true) }
        ensures newest { OnOk result (self.new.newest ≡ edition.now) }
        ensures stands { self.new.stands ≡ self.old.stands }
        ensures last { self.new.last ≡ self.old.last }
        ensures strip { self.new.current.strip ≡ self.old.current.strip }
        ensures other { (self.new.other ≡ self.old.other) × (self.new.on_second ≡ self.old.on_second) }
        ensures refused { OnErr result (self.new ≡ self.old) }
    {
        let payload = encode_edition(alloc, edition)?;
        let Ok(()) = self.current.stage(alloc, payload) else {
            return Err(AllocError);
        };
        self.doubt = Some(Snapshot::of(edition));
        self.newest_number = edition.number;
        Ok(())
    }
}
