/// Whether other programs may use a file at the same time.
#[derive(Clone, Copy, Debug, PartialEq, Eq)]
pub enum Holding {
    /// They may.
    Shared,
    /// They may not: the file is locked while it is open.
    Alone,
}

impl Holding {
    pub(crate) fn is_alone(self) -> bool {
        match self {
            Holding::Shared => false,
            Holding::Alone => true,
        }
    }
}
