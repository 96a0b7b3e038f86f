ghost use Rattle.std.specs.Prelude.{◌≡◌, ◌≤◌, [], length, vec_capacity};
ghost use Rattle.partition_plan.specs.Plans.{planned};

use crate::decision::Decision;
use crate::part_size::PartSize;
use crate::so_far::SoFar;

/// One decision for each member of `sizes`, in order. `partitions` is the number of all partitions, and `may_abort` tells
/// whether new data may be carried on. It takes no memory.
pub fn plan(sizes: &[PartSize], partitions: u32, may_abort: bool, into: &mut Vec<Decision>)
    requires empty { into.old.items ≡ [] }
    requires room { length sizes.now ≤ vec_capacity into.old }
    ensures decisions { into.new.items ≡ planned may_abort 0 partitions sizes.now }
    ensures capacity { vec_capacity into.new ≡ vec_capacity into.old }
{
    let mut so_far = SoFar::new(partitions);
    'members: for size in sizes {
        let decision = so_far.decide(size, may_abort);
        so_far = so_far.after(size, may_abort, decision);
        into.push_reserved(decision);
    }
}
