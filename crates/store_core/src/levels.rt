use crate::edition_parts::EditionParts;
use crate::member_list::MemberList;
use crate::shared_run::SharedRun;

/// What lies below a memtable: frozen members, above what compactions carried on, above the runs of partitions.
#[derive(Drop)]
pub(crate) struct Levels {
    pub(crate) members: MemberList,
    pub(crate) carried: SharedRun,
    pub(crate) parts: EditionParts,
}
