//! What holds of every plan, cut and compaction, as calls that carry it in their contracts. They do nothing.
ghost use Rattle.partition_plan.specs.PlanLaws.{OneDecisionEach, CarriesLittle, LeavesFewParts, AbortsIfAllowed};
ghost use Rattle.partition_plan.specs.CutLaws.{CutKeepsRows, PartsFit, PartsHaveRows, PartsAreFull};
ghost use Rattle.partition_plan.specs.CompactionLaws.{PiecesKeepRows, NewRunsHavePairs, CompactionKeepsMap, AbortsKeepAll, PlanLeavesFewParts, PlanLeavesFewRuns, PlanCarriesLittle};

/// Each member of a plan has one decision. What is carried on and the number of partitions stay within their limits, and
/// nothing is carried on where that is not allowed.
pub fn decisions_of_plan()
    ensures each { OneDecisionEach }
    ensures carried { CarriesLittle }
    ensures parts { LeavesFewParts }
    ensures allowed { AbortsIfAllowed }
{}

/// Rows in parts: each row once and in order, no part empty where there are rows, and each part as large as it may be.
pub fn cut_of_rows()
    ensures rows { CutKeepsRows }
    ensures fits { PartsFit }
    ensures some { PartsHaveRows }
    ensures full { PartsAreFull }
{}

/// Whatever is decided for a partition, the rows of what is carried on over its pieces are those of the new pairs over its
/// runs, and the pieces follow one another in its range. Each new run has a pair if there is a new one.
pub fn pieces_of_partition()
    ensures rows { PiecesKeepRows }
    ensures pairs { NewRunsHavePairs }
{}

/// Whatever is decided, a compaction keeps the rows: those of what is carried on over the partitions. Aborts alone leave the
/// partitions as they are, and carry all on.
pub fn compaction_of_partitions()
    ensures rows { CompactionKeepsMap }
    ensures aborts { AbortsKeepAll }
{}

/// After the compaction that was planned the numbers of partitions and of runs, and what is carried on, are within their limits.
pub fn compaction_of_plan()
    ensures parts { PlanLeavesFewParts }
    ensures runs { PlanLeavesFewRuns }
    ensures carried { PlanCarriesLittle }
{}
