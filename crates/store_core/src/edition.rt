use crate::edition_parts::EditionParts;

/// An edition: which files stand for the store, and from which log segment on.
#[derive(Drop)]
pub(crate) struct Edition {
    pub(crate) number: u64,
    /// The next number to be drawn, for a file or an edition.
    pub(crate) next: u64,
    /// The first log segment that is needed beside the files.
    pub(crate) first: u64,
    pub(crate) parts: EditionParts,
}
