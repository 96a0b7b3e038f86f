/// A memtable: its number, which its log segment has too, and which entries are in it.
#[derive(Clone, Copy, Debug, PartialEq, Eq)]
pub(crate) struct Memtable {
    pub(crate) number: u64,
    /// The number of its first entry.
    pub(crate) base: u64,
    /// The number after its last entry's. None while it is open.
    pub(crate) ended: Option<u64>,
}
