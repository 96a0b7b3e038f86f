use crate::word::Word;

/// Where a store's devices are.
#[derive(Debug, Drop)]
pub enum Place {
    /// In memory.
    Memory,
    /// In this folder of the system.
    Folder(Word),
}
