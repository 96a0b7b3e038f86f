use crate::shared_run::SharedRun;

/// A file: its number, and the run that it has.
#[derive(Drop)]
pub(crate) struct RunFile {
    pub(crate) number: u64,
    pub(crate) run: SharedRun,
}
