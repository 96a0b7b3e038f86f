use thiserror::Error;

/// Why no request is answered.
#[derive(Clone, Copy, Debug, PartialEq, Eq, Error)]
pub enum WireError {
    /// The message that begins at this place of the input is not in the grammar: the code of the first test that fails.
    #[error("the message at {at} is refused by code {code}")]
    BadMessage { at: u64, code: u8 },
    /// Memory was refused. The message is dropped as if it had been read.
    #[error("out of memory")]
    Memory,
}
