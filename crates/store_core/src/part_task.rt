use crate::edition_part::EditionPart;
use crate::shared_run::SharedRun;
use partition_plan::Decision;

/// What a compaction does with a partition and what is new in its range.
#[derive(Drop)]
pub(crate) struct PartTask {
    pub(crate) part: EditionPart,
    pub(crate) new: SharedRun,
    pub(crate) oldest: Option<u64>,
    pub(crate) decision: Decision,
}
