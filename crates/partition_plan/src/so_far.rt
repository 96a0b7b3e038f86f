ghost use Rattle.std.specs.Prelude.{◌≡◌, ◌≤◌, ◌<◌, ◌^◌};
ghost use Rattle.partition_plan.specs.declared.limits.TheConstants.{CARRIED_MAX};
ghost use Rattle.partition_plan.specs.Plans.{may_carry, may_add_run, may_stay_one, decided, kept_after, count_after};

use crate::decision::Decision;
use crate::limits::{AGE_MAX, CARRIED_MAX, PARTITION_MAX, PARTITIONS_MAX, RUNS_MAX, SMALL_BELOW};
use crate::part_size::PartSize;

/// The two sums of a plan after some of its members.
#[derive(Clone, Copy)]
pub(crate) struct SoFar {
    /// How many bytes of new data the members carry on.
    kept: u64,
    /// How many partitions there are after their splits.
    count: u64,
    ghost few_kept: { kept ≤ CARRIED_MAX },
    ghost few_parts: { count < 2 ^ 32 },
}

/// Whether a partition has room for one run more.
fn has_room(size: &PartSize) -> bool
    ensures { result ≡ may_add_run size.now }
{
    size.runs < RUNS_MAX
        && u128::from(size.held) + u128::from(size.new) <= u128::from(PARTITION_MAX)
}

impl SoFar {
    /// Before the first member.
    pub(crate) fn new(partitions: u32) -> SoFar
        ensures kept { result.kept ≡ 0 }
        ensures count { result.count ≡ partitions }
    {
        SoFar {
            kept: 0,
            count: u64::from(partitions),
        }
    }

    /// Whether the new data of a partition are few and young enough to be carried on.
    fn can_carry(&self, size: &PartSize, may_abort: bool) -> bool
        ensures { result ≡ may_carry may_abort self.now.kept size.now }
    {
        may_abort
            && size.new < SMALL_BELOW
            && self.kept + size.new <= CARRIED_MAX
            && size.carried_age <= AGE_MAX
    }

    /// Whether the rows of a partition stay together.
    fn keeps_together(&self, size: &PartSize) -> bool
        ensures { result ≡ may_stay_one self.now.count size.now }
    {
        size.merged <= PARTITION_MAX
            || self.count + u64::from(size.parts) > u64::from(PARTITIONS_MAX) + 1
    }

    /// The decision of the next member.
    pub(crate) fn decide(&self, size: &PartSize, may_abort: bool) -> Decision
        ensures { result ≡ decided may_abort self.now.kept self.now.count size.now }
    {
        if self.can_carry(size, may_abort) {
            Decision::Abort
        } else if has_room(size) {
            Decision::Minor
        } else if self.keeps_together(size) {
            Decision::Major
        } else {
            Decision::Split
        }
    }

    /// The sums after that decision.
    pub(crate) fn after(&self, size: &PartSize, may_abort: bool, decision: Decision) -> SoFar
        requires { decision ≡ decided may_abort self.now.kept self.now.count size.now }
        ensures kept { result.kept ≡ kept_after decision self.now.kept size.now }
        ensures count { result.count ≡ count_after decision self.now.count size.now }
    {
        match decision {
            Decision::Abort => SoFar {
                kept: self.kept + size.new,
                count: self.count,
            },
            Decision::Minor | Decision::Major => SoFar {
                kept: self.kept,
                count: self.count,
            },
            Decision::Split => SoFar {
                kept: self.kept,
                count: (self.count + u64::from(size.parts)).saturating_sub(1),
            },
        }
    }
}
