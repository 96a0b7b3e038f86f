use crate::version::Version;

/// A caller.
#[derive(Drop)]
pub(crate) struct Caller {
    /// How many entries are its own.
    pub(crate) calls: u64,
    /// It has seen the entries below this number.
    pub(crate) front: u64,
    /// The version that it took last.
    pub(crate) held: Option<Version>,
}
