//! The manifest: what it keeps, how it is opened, and what it gives back.
ghost use Rattle.std.specs.Prelude.{◌≡◌, false, IfOk, IfErr, OnOk};
ghost use Rattle.frame_journal.specs.Frames.{frames_of};
ghost use Rattle.frame_journal.specs.JournalState.{has_staged};
ghost use Rattle.manifest_core.specs.Manifests.{HasEdition, HasOne};
ghost use Rattle.manifest_core.specs.ManifestState.{first_strip, second_strip};
ghost use Rattle.manifest_core.specs.Pairs.{OfBothBytes, StandNow};
ghost use Rattle.manifest_core.specs.Commits.{CountsStay};
ghost use Rattle.manifest_core.specs.Openings.{first_of, second_of, IsOnlyRead, IsRefused, IsOfSynced, OpenCause, ManifestErrorOf, here_of, there_of, IsFound};
ghost use Rattle.manifest_core.specs.Kept.{IsKept};

use crate::ManifestError;
use crate::reading::{Found, read_twice};
use disk_model::{MANIFEST_A, MANIFEST_B, Strip};
use edition_code::Edition;
use frame_journal::{Journal, JournalError};
use std::alloc::Global;
use std::marker::Model;
use std::snapshot::Snapshot;

/// Two strips that stand for one edition. One of them is current: the next edition is written there, until it is full.
///
/// After a fault the edition that was written may stand, or not, and is in doubt until the next commit settles it.
#[derive(Drop)]
pub struct Manifest<S: Strip> {
    pub(crate) current: Journal<S>,
    pub(crate) other: Journal<S>,
    /// Whether the second strip is the current one.
    pub(crate) on_second: bool,
    pub(crate) last: Edition,
    /// The number of the newest edition that may stand.
    pub(crate) newest_number: u64,
    pub(crate) stands: Snapshot<Edition>,
    pub(crate) doubt: Option<Snapshot<Edition>>,
}

impl<S: Strip> Model for Manifest<S> {
    ghost use Rattle.std.specs.Prelude.{◌≡◌};
    ghost use Rattle.manifest_core.specs.ManifestState.{ManifestState};
    ghost use Rattle.manifest_core.specs.Told.{newest_of};
    ghost use Rattle.manifest_core.specs.Kept.{IsKept};

    ghost Value = { ManifestState S };

    ghost view = { λ m. record {
      current = m.current;
      other = m.other;
      on_second = m.on_second;
      last = m.last;
      stands = m.stands.value;
      newest = newest_of m.stands.value m.doubt;
    } };

    ghost invariant = { λ m. IsKept S.Strip m.current m.other m.stands.value (newest_of m.stands.value m.doubt)
        × ((newest_of m.stands.value m.doubt).number ≡ m.newest_number) };
}

impl<S: Strip> Manifest<S> {
    /// Opens two strips as a manifest, by at most three calls of each, and writes nothing. Answers with the edition that
    /// they stand for, or gives both back.
    pub fn open(
        alloc: Global,
        first: S,
        second: S,
    ) -> Result<(Manifest<S>, Edition), (S, S, ManifestError)>
        ensures read { IfOk result (λ found. OfBothBytes S.Strip first second (HasEdition found.1)) }
        ensures last { IfOk result (λ found. found.0.last ≡ found.1) }
        ensures stands { IfOk result (λ found. (found.0.stands ≡ found.1) × (found.0.newest ≡ found.1)) }
        ensures idle { IfOk result (λ found. has_staged found.0.current ≡ false) }
        // The strip that has it is the current one. Where neither has a frame, it is the second, which is not ready.
        ensures picked { IfOk result (λ found. OfBothBytes S.Strip first second
            (λ a b. IsFound (frames_of a) (frames_of b) found.0.on_second found.1)) }
        // The strips and each crash image of them stand for it.
        ensures left { IfOk result
            (λ found. StandNow S.Strip (first_strip found.0) (second_strip found.0) (HasEdition found.1)) }

        // A torn header of the first strip, of the second one, then what the last frames say.
        ensures refused { IfErr result (λ refused. OfBothBytes S.Strip first second (IsRefused refused.2)) }
        ensures synced { IfErr result (λ refused. IsOfSynced S.Strip refused.0 refused.1 refused.2) }

        // Each strip is given back as it was. At each moment a crash leaves what it might have left before.
        ensures first { IsOnlyRead S.Strip 3 first (first_of result) }
        ensures second { IsOnlyRead S.Strip 3 second (second_of result) }
        ensures cause { IfErr result (λ refused. OpenCause S.Strip first second refused.0 refused.1 refused.2) }
        ensures kept { IfOk result (λ found. CountsStay S.Strip first second (first_strip found.0) (second_strip found.0)) }
    {
        match Journal::open(alloc, first) {
            Ok((first, of_first)) => match Journal::open(alloc, second) {
                Ok((second, of_second)) => {
                    let (first_end, second_end) = (first.end(), second.end());
                    match read_twice(alloc, &of_first, first_end, &of_second, second_end) {
                        Ok((found, edition)) => {
                            let manifest = Manifest::of(first, second, found);
                            manifest.tell_images();
                            Ok((manifest, edition))
                        }
                        Err(error) => Err((first.into_strip(), second.into_strip(), error)),
                    }
                }
                Err((second, error)) => {
                    Err((first.into_strip(), second, told_of(MANIFEST_B, error)))
                }
            },
            Err((first, error)) => Err((first, second, told_of(MANIFEST_A, error))),
        }
    }

    /// The manifest of two journals in which this was found.
    fn of(first: Journal<S>, second: Journal<S>, found: Found) -> Manifest<S>
        requires { IsKept S.Strip (here_of found.on_second first second) (there_of found.on_second first second)
            found.edition found.edition }
        ensures strips { (first_strip result ≡ first.strip) × (second_strip result ≡ second.strip) }
        ensures current { result.current ≡ here_of found.on_second first second }
        ensures side { result.on_second ≡ found.on_second }
        ensures last { result.last ≡ found.edition }
        ensures stands { (result.stands ≡ found.edition) × (result.newest ≡ found.edition) }
    {
        let Found { on_second, edition } = found;
        let stands = Snapshot::of(&edition);
        let newest_number = edition.number;
        let (current, other) = turned(on_second, first, second);
        Manifest {
            current,
            other,
            on_second,
            last: edition,
            newest_number,
            stands,
            doubt: None,
        }
    }

    /// The edition whose commit succeeded last, or that was found at opening. After a refusal the strips may stand for a
    /// newer one, so numbers are then drawn from the next number of the edition that was handed in, not from this one.
    pub fn last(&self) -> &Edition
        ensures { result.now ≡ self.now.last }
    {
        &self.last
    }

    /// The number of the newest edition that may stand. The next one is to have a greater number.
    pub fn newest_number(&self) -> u64
        ensures { result ≡ self.now.newest.number }
    {
        self.newest_number
    }

    /// What the strips stand for now: the edition that surely stands, or the one that is in doubt. It does nothing.
    pub fn tell_images(&self)
        ensures left { StandNow S.Strip (first_strip self.now) (second_strip self.now)
            (HasOne self.now.stands self.now.newest) }
        ensures same { has_staged self.now.current ≡ false → self.now.newest ≡ self.now.stands }
    {
        self.current.leaves();
        self.other.leaves();
    }

    /// The first strip, and the second one.
    pub fn into_strips(self) -> (S, S)
        ensures strips { (result.0 ≡ first_strip self) × (result.1 ≡ second_strip self) }
        ensures left { StandNow S.Strip result.0 result.1 (HasOne self.stands self.newest) }
    {
        self.tell_images();
        let Manifest {
            current,
            other,
            on_second,
            ..
        } = self;
        let (first, second) = turned(on_second, current, other);
        (first.into_strip(), second.into_strip())
    }
}

/// The second before the first, where that is asked for.
fn turned<T>(turn: bool, first: T, second: T) -> (T, T)
    ensures { (result.0 ≡ here_of turn first second) × (result.1 ≡ there_of turn first second) }
{
    if turn {
        (second, first)
    } else {
        (first, second)
    }
}

/// Why a journal is not opened, as a manifest says it.
fn told_of(strip: u8, error: JournalError) -> ManifestError
    ensures { ManifestErrorOf strip error result }
{
    match error {
        JournalError::Fault(unit) => ManifestError::Fault(unit),
        JournalError::TornHeader { at } => ManifestError::TornHeader { strip, at },
        JournalError::Memory => ManifestError::Memory,
    }
}
