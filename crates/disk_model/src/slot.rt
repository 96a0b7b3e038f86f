//! One number of a shelf in memory: its file, and what a crash may make of that.
ghost use Rattle.std.specs.Prelude.{◌≡◌, ◌%◌, Some, None};
ghost use Rattle.disk_model.specs.Slots.{empty_slot, is_open, put_failed, removed, remove_failed, picked_by, left_slot};
ghost use Rattle.disk_model.specs.declared.slot.Doubt.TheVariants.{Put, Removing, Removed};

use crate::limits::STRAY_BYTE;
use crate::piece::Piece;

/// Why a crash may leave something else than the file that is there, or than none.
#[derive(Drop)]
pub(crate) enum Doubt {
    /// A put of these bytes failed: anything may be left.
    Put { bytes: Piece },
    /// A remove failed: the file may be gone.
    Removing,
    /// These bytes were removed, and may be left.
    Removed { bytes: Piece },
}

/// A number, its file where there is one, and what a crash may make of that.
#[derive(Drop)]
pub(crate) struct Slot {
    pub(crate) number: u64,
    pub(crate) file: Option<Piece>,
    pub(crate) doubt: Option<Doubt>,
}

impl Slot {
    /// A number with nothing.
    pub(crate) fn empty(number: u64) -> Slot
        ensures { result ≡ empty_slot number }
    {
        Slot {
            number,
            file: None,
            doubt: None,
        }
    }

    /// A put of these bytes failed.
    pub(crate) fn fail_put(&mut self, bytes: Piece)
        ensures { self.new ≡ put_failed bytes self.old }
    {
        self.doubt = Some(Doubt::Put { bytes });
    }

    /// Removes the file. Until the next put, a crash may leave it.
    pub(crate) fn remove(&mut self)
        ensures { self.new ≡ removed self.old }
    {
        let Some(bytes) = self.file.take() else {
            return
        };
        if !is_open(&self.doubt) {
            self.doubt = Some(Doubt::Removed { bytes });
        }
    }

    /// A remove failed.
    pub(crate) fn fail_remove(&mut self)
        ensures { self.new ≡ remove_failed self.old }
    {
        if self.file.is_none() || is_open(&self.doubt) {
            return;
        }
        self.doubt = Some(Doubt::Removing);
    }

    /// A crash leaves what is picked. It takes no memory.
    pub(crate) fn crash(&mut self, pick: u64)
        ensures { self.new ≡ left_slot pick self.old }
    {
        self.file = left_by(self.doubt.take(), self.file.take(), pick);
    }
}

/// Whether a crash may leave anything.
fn is_open(doubt: &Option<Doubt>) -> bool
    ensures { result ≡ is_open doubt.now }
{
    matches!(doubt, Some(Doubt::Put { .. }))
}

/// What is left of a file by the crash that is picked.
fn left_by(doubt: Option<Doubt>, own: Option<Piece>, pick: u64) -> Option<Piece>
    ensures { result ≡ picked_by doubt (pick % 4) own }
{
    match doubt {
        None => own,
        Some(Doubt::Put { bytes }) => put_left(bytes, pick),
        Some(Doubt::Removing) => removing_left(own, pick),
        Some(Doubt::Removed { bytes }) => removed_left(bytes, own, pick),
    }
}

fn put_left(bytes: Piece, pick: u64) -> Option<Piece>
    ensures { result ≡ picked_by (Some (Put bytes)) (pick % 4) None }
{
    match pick % 4 {
        0 => None,
        1 => Some(bytes),
        2 => Some(bytes.half()),
        _ => Some(bytes.filled(STRAY_BYTE)),
    }
}

fn removing_left(own: Option<Piece>, pick: u64) -> Option<Piece>
    ensures { result ≡ picked_by (Some Removing) (pick % 4) own }
{
    match pick % 4 {
        0 => own,
        _ => None,
    }
}

fn removed_left(bytes: Piece, own: Option<Piece>, pick: u64) -> Option<Piece>
    ensures { result ≡ picked_by (Some (Removed bytes)) (pick % 4) own }
{
    match pick % 4 {
        0 => Some(bytes),
        _ => own,
    }
}
