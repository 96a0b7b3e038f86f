/// With what a history's word is made.
#[derive(Drop, Clone, Copy)]
pub struct Origin {
    /// The number of the history's first entry.
    pub first: u64,
    /// The number of the first memtable.
    pub memtable: u64,
    /// The live number of pen and keeper.
    pub live: u64,
    /// Their next number.
    pub next: u64,
}
