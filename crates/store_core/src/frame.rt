/// A frame that the log is writing.
#[derive(Clone, Copy, Debug, PartialEq, Eq)]
pub(crate) struct Frame {
    /// The number after its last entry's.
    pub(crate) upto: u64,
    /// Whether its gate was written.
    pub(crate) gated: bool,
}
