ghost use Rattle.std.specs.Prelude.{◌≡◌};
ghost use Rattle.leaf_table.specs.Refusals.{IsSplitErrorOf};
ghost use Rattle.leaf_table.specs.declared.split_error.SplitError.TheVariants as splits;

use meta_trie::TrieError;
use std::alloc::AllocError;
use thiserror::Error;

/// Why a full leaf was not split. Nothing changed then.
#[derive(Debug, Drop, Error)]
pub enum SplitError {
    /// As many leaves as a table may have are used, or the trie has no room for the anchor.
    #[error("the table is full")]
    Full,
    /// There was no memory for the split.
    #[error("out of memory")]
    Memory,
}

impl From<TrieError> for SplitError {
    ghost from_gives = { IsSplitErrorOf };

    fn from(error: TrieError) -> SplitError {
        match error {
            TrieError::TrieFull { .. } => SplitError::Full,
            TrieError::Memory => SplitError::Memory,
        }
    }
}

impl From<AllocError> for SplitError {
    ghost from_gives = { λ _ error. error ≡ splits.Memory };

    fn from(_: AllocError) -> SplitError {
        SplitError::Memory
    }
}
