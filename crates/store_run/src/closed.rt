use disk_model::{Devices, FaultPile};

/// What closing a store gives back.
#[derive(Drop)]
pub struct Closed<S: Drop, H: Drop> {
    pub devices: Devices<S, H>,
    /// The units that were handed in, and the closing flush's.
    pub faults: FaultPile,
    /// Whether the closing flush ran out of memory.
    pub short: bool,
    /// The number after the last entry.
    pub front: u64,
}
