/// A change of a strip in memory since its last sync: a range that was or was to be written, or a cut to a length.
#[derive(Drop)]
pub(crate) enum Change {
    Written { at: u64, count: u64 },
    CutTo { at: u64 },
}
