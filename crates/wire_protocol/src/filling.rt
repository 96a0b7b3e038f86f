//! Bytes put after those that stand at the front of a memory.
ghost use Rattle.std.specs.Prelude.{◌≡◌, ◌+◌, ◌≤◌, ◌<◌, ◌++◌, length, take, IfOk, OnErr};
ghost use Rattle.std.specs.Io.KnownBytes.{prepend_known};
ghost use Rattle.fault_count.specs.Causes.{HasCause};
ghost use Rattle.link_model.specs.Streams.{OneFault};
ghost use Rattle.wire_protocol.specs.Filling.{Fills};

use link_model::{Failed, Source};

/// Copies a part to where the front ends.
#[tactic(auto, using(std::proofs::lemmas::Slice::overwrites))]
pub(crate) fn put_after(memory: &mut [u8], front: usize, part: &[u8])
    requires { front + length part.now ≤ length memory.old }
    ensures len { length memory.new ≡ length memory.old }
    ensures bytes { take (front + length part.now) memory.new ≡ take front memory.old ++ part.now }
{
    let end = front + part.len();
    memory[front..end].copy_from_slice(part);
}

/// Lets a source fill the memory from where the front ends up to another place, and answers how many bytes came.
pub(crate) fn take_after<R: Source>(
    memory: &mut [u8],
    front: usize,
    end: usize,
    source: &mut R,
) -> Result<usize, Failed>
    requires some { front < end }
    requires within { end ≤ length memory.old }
    ensures len { length memory.new ≡ length memory.old }
    ensures filled { IfOk result (Fills memory.old (R.left source.old) memory.new (R.left source.new) front end) }
    ensures kept { OnErr result (take front memory.new ≡ take front memory.old) }
    ensures left { OnErr result (R.left source.new ≡ R.left source.old) }
    ensures cause { HasCause OneFault (R.faults source.old) (R.faults source.new) result }
{
    source.take(&mut memory[front..end])
}
