/// Where a block of a table lies.
#[derive(Clone, Copy, Debug, PartialEq, Eq)]
pub struct BlockPlace {
    /// The place of its first byte.
    pub place: u32,
    /// How many pairs it has.
    pub count: u16,
    /// How many bytes it has, up to the end of its last unit.
    pub len: u32,
}
