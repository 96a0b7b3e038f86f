use thiserror::Error;

/// Why bytes are no value.
#[derive(Clone, Copy, Debug, PartialEq, Eq, Error)]
pub enum ValueError {
    /// There are more than `VALUE_MAX`.
    #[error("a value has at most {max} bytes, and these are {len}", max = crate::limits::VALUE_MAX)]
    BadValue { len: usize },
    #[error("out of memory")]
    Memory,
}
