use crate::edition_part::EditionPart;
use crate::shared_run::SharedRun;

/// A partition, and what is new in its range.
#[derive(Drop)]
pub(crate) struct PartNews {
    pub(crate) part: EditionPart,
    /// The newest change of each new key.
    pub(crate) new: SharedRun,
    /// The log segment of the partition's oldest entry that is in no run of it.
    pub(crate) oldest: Option<u64>,
}
