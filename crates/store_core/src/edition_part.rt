use crate::bound::Bound;
use crate::run_files::RunFiles;

/// A partition of an edition.
#[derive(Drop)]
pub(crate) struct EditionPart {
    /// No key of it is below this bound.
    pub(crate) low: Bound,
    /// Each entry of its range with a number below this one is in its runs, or was overwritten there.
    pub(crate) base: u64,
    /// Its runs, the newest first.
    pub(crate) runs: RunFiles,
}
