use thiserror::Error;

/// Why bytes are no key.
#[derive(Clone, Copy, Debug, PartialEq, Eq, Error)]
pub enum KeyError {
    /// There are none, or more than `KEY_MAX`.
    #[error("a key has 1 to {max} bytes, and these are {len}", max = crate::limits::KEY_MAX)]
    BadKey { len: usize },
    #[error("out of memory")]
    Memory,
}
