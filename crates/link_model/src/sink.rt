//! Where bytes go to.
ghost use Rattle.std.specs.Prelude.{◌≡◌, ℕ, List, Option, Bool, true, length, OnOk};
ghost use Rattle.fault_count.specs.Causes.{HasCause};
ghost use Rattle.link_model.specs.Streams.{PutsFront, OneFault};

use crate::failed::Failed;

/// Where bytes go to.
pub trait Sink {
    /// The bytes that it took, where contracts see them.
    ghost written: { Self → Option (List ℕ) };

    /// How often it failed. The count stands still at 2^64 - 1.
    ghost faults: { Self → ℕ };

    /// Whether it holds nothing back: all that it took is passed on.
    ghost is_passed_on: { Self → Bool };

    /// Puts the whole piece after what it took, or fails after a front of it. An empty piece is
    /// allowed: a sink that gathers passes on what it holds at that call.
    fn put(&mut self, piece: &[u8]) -> Result<(), Failed>
        ensures bytes { PutsFront (written self.old) (written self.new) result piece.now }
        ensures cause { HasCause OneFault (faults self.old) (faults self.new) result }
        ensures passed_on { OnOk result (length piece.now ≡ 0 → is_passed_on self.new ≡ true) };
}
