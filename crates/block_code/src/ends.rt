/// What a reader keeps of a block: it copies no pair.
#[derive(Clone, Copy, Debug)]
pub struct BlockEnds<'a> {
    /// How many pairs the block has.
    pub count: u16,
    /// The last of their keys.
    pub last: &'a [u8],
    /// What is after the block.
    pub rest: &'a [u8],
}
