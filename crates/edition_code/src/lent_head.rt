/// The head of a partition, lent from its bytes.
#[derive(Clone, Copy, Debug)]
pub(crate) struct LentHead<'a> {
    /// The low bound.
    pub(crate) low: &'a [u8],
    /// The base number.
    pub(crate) base: u64,
    /// How many runs there are.
    pub(crate) runs: u8,
}
