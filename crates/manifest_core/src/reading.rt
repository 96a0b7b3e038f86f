//! Reads the frames of both strips.
ghost use Rattle.std.specs.Prelude.{◌≡◌, ◌+◌, ◌≤◌, Some, None, length, IfOk, IfSome};
ghost use Rattle.frame_journal.specs.Frames.{end_of, frame_size};
ghost use Rattle.manifest_core.specs.Manifests.{last_frame, gate_before, gate_of, of_strip, on_strip, greater, manifest_of};
ghost use Rattle.manifest_core.specs.Openings.{GivesManifest, IsPicked, IsFound};
ghost use Rattle.manifest_core.specs.declared.limits.TheConstants.{FRAME_HEAD};

use crate::ManifestError;
use crate::limits::FRAME_HEAD;
use disk_model::{MANIFEST_A, MANIFEST_B};
use edition_code::{Edition, EditionError, decode_edition};
use frame_journal::Frame;
use std::alloc::Global;

/// The edition that is read, and whether the second strip is the one to write to.
#[derive(Drop)]
pub(crate) struct Found {
    pub on_second: bool,
    pub edition: Edition,
}

/// The last frame.
fn last_of(frames: &[Frame]) -> Option<&Frame>
    ensures some { IfSome result (λ frame. last_frame frames.now ≡ Some frame.now) }
    ensures least { IfSome result (λ frame. frame_size frame.now ≤ end_of frames.now) }
    ensures none { result ≡ None → last_frame frames.now ≡ None }
{
    match frames {
        [.., frame] => Some(frame),
        [] => None,
    }
}

/// The place at which the gate of this last frame stands.
fn gate_at(end: u64, frame: &Frame) -> u64
    requires { frame_size frame.now ≤ end }
    ensures { result + (FRAME_HEAD + length frame.now.payload) ≡ end }
{
    end - (FRAME_HEAD + frame.payload.len() as u64)
}

/// The edition that a strip has.
#[tactic(auto, unfolding(crate::specs::Manifests::on_strip))]
fn edition_on(
    alloc: Global,
    strip: u8,
    frames: &[Frame],
    end: u64,
) -> Result<Option<Edition>, ManifestError>
    requires { end ≡ end_of frames.now }
    ensures { GivesManifest (λ x. x) result (of_strip strip (on_strip frames.now)) }
{
    let Some(frame) = last_of(frames) else {
        return Ok(None);
    };
    let begins = gate_at(end, frame) + FRAME_HEAD;
    match decode_edition(alloc, &frame.payload) {
        Ok(edition) => Ok(Some(edition)),
        Err(EditionError::BadEdition { at }) => Err(ManifestError::BadManifest {
            strip,
            at: begins + at as u64,
        }),
        Err(EditionError::Memory) => Err(ManifestError::Memory),
    }
}

/// The place at which the gate of the last frame stands, 0 where there is none.
fn last_gate(frames: &[Frame], end: u64) -> u64
    requires { end ≡ end_of frames.now }
    ensures { result ≡ gate_of frames.now }
{
    match last_of(frames) {
        Some(frame) => gate_at(end, frame),
        None => 0,
    }
}

/// Of two editions, that of the greater number.
fn greater_of(gate: u64, first: Edition, second: Edition) -> Result<Found, ManifestError>
    ensures exact { GivesManifest (λ x. x.edition) result (greater gate (Some first) (Some second)) }
    ensures picked { IfOk result (λ x. IsPicked x.on_second x.edition (Some first) (Some second)) }
{
    if first.number == second.number {
        return Err(ManifestError::BadManifest {
            strip: MANIFEST_B,
            at: gate,
        });
    }
    if first.number < second.number {
        return Ok(Found {
            on_second: true,
            edition: second,
        });
    }
    Ok(Found {
        on_second: false,
        edition: first,
    })
}

/// The edition that stands, of those that the strips have.
fn standing_of(
    alloc: Global,
    gate: u64,
    first: Option<Edition>,
    second: Option<Edition>,
) -> Result<Found, ManifestError>
    ensures exact { GivesManifest (λ x. x.edition) result (greater gate first second) }
    ensures picked { IfOk result (λ x. IsPicked x.on_second x.edition first second) }
{
    match (first, second) {
        (Some(first), Some(second)) => greater_of(gate, first, second),
        (Some(edition), None) => Ok(Found {
            on_second: false,
            edition,
        }),
        (None, Some(edition)) => Ok(Found {
            on_second: true,
            edition,
        }),
        (None, None) => Ok(Found {
            on_second: true,
            edition: Edition::initial(alloc)?,
        }),
    }
}

/// The edition that two strips stand for, the first strip's fault before the second's.
#[tactic(auto, unfolding(crate::specs::Manifests::manifest_of))]
fn read(
    alloc: Global,
    first: &[Frame],
    first_end: u64,
    second: &[Frame],
    second_end: u64,
) -> Result<Found, ManifestError>
    requires first { first_end ≡ end_of first.now }
    requires second { second_end ≡ end_of second.now }
    ensures exact { GivesManifest (λ x. x.edition) result (manifest_of first.now second.now) }
    ensures found { IfOk result (λ x. IsFound first.now second.now x.on_second x.edition) }
{
    let on_first = edition_on(alloc, MANIFEST_A, first, first_end)?;
    let on_second = edition_on(alloc, MANIFEST_B, second, second_end)?;
    standing_of(alloc, last_gate(second, second_end), on_first, on_second)
}

/// The edition that two strips stand for, and a copy of it.
pub(crate) fn read_twice(
    alloc: Global,
    first: &[Frame],
    first_end: u64,
    second: &[Frame],
    second_end: u64,
) -> Result<(Found, Edition), ManifestError>
    requires first { first_end ≡ end_of first.now }
    requires second { second_end ≡ end_of second.now }
    ensures exact { GivesManifest (λ x. x.0.edition) result (manifest_of first.now second.now) }
    ensures found { IfOk result
        (λ x. IsFound first.now second.now x.0.on_second x.0.edition) }
    ensures copy { IfOk result (λ x. x.1 ≡ x.0.edition) }
{
    let found = read(alloc, first, first_end, second, second_end)?;
    let copy = found.edition.try_copy(alloc)?;
    Ok((found, copy))
}
