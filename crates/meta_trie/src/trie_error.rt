ghost use Rattle.std.specs.Prelude.{◌≡◌};
ghost use Rattle.meta_trie.specs.declared.trie_error.TrieError.TheVariants.{Memory};

use std::alloc::AllocError;

/// Why an anchor is not added.
#[derive(Debug, Drop, PartialEq, Eq)]
pub enum TrieError {
    /// With the anchor there would be more than `NODES_MAX` nodes. `nodes` is how many there are without it.
    TrieFull { nodes: u32 },
    /// Out of memory.
    Memory,
}

impl From<AllocError> for TrieError {
    ghost from_gives = { λ _ e. e ≡ Memory };

    fn from(_: AllocError) -> Self {
        TrieError::Memory
    }
}
