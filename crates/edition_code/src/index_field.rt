/// The file of an index over the runs of a partition, as an edition names it.
#[derive(Clone, Copy, Debug, PartialEq, Eq)]
pub struct IndexField {
    /// The file's number on the shelf, from 1 on.
    pub number: u64,
    /// How many bytes the file has.
    pub length: u64,
    /// The SHA-256 of its bytes.
    pub digest: [u8; 32],
}
