//! Where bytes come from.
ghost use Rattle.std.specs.Prelude.{◌<◌, ℕ, List, Option, length};
ghost use Rattle.fault_count.specs.Causes.{HasCause};
ghost use Rattle.link_model.specs.Streams.{TakesFront, OneFault};

use crate::failed::Failed;

/// Where bytes come from.
pub trait Source {
    /// The bytes that are left, where contracts see them.
    ghost left: { Self → Option (List ℕ) };

    /// How often it failed. The count stands still at 2^64 - 1.
    ghost faults: { Self → ℕ };

    /// Takes bytes from the front of what is left into the front of `into`, and answers how many.
    /// The answer 0 is the end of the input. A failed take leaves the bytes where they were.
    fn take(&mut self, into: &mut [u8]) -> Result<usize, Failed>
        requires { 0 < length into.old }
        ensures bytes { TakesFront (left self.old) (left self.new) result into.new }
        ensures cause { HasCause OneFault (faults self.old) (faults self.new) result };
}
