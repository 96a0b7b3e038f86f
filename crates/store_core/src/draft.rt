use crate::edition::Edition;
use crate::run_files::RunFiles;
use crate::shared_run::SharedRun;

/// An edition that is being made.
#[derive(Drop)]
pub(crate) struct Draft {
    pub(crate) edition: Edition,
    /// What is carried on once the edition is used.
    pub(crate) carried: SharedRun,
    /// How many members it has in: the oldest of those that are frozen.
    pub(crate) taken: u64,
    /// The files that are not put yet, the next one first.
    pub(crate) lacking: RunFiles,
}
