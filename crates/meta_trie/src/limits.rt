//! The limit of a trie.

/// The most nodes that a trie has: one for each prefix of its anchors.
pub const NODES_MAX: usize = 65_536;

const _: () = prove!(NODES_MAX == 65_536);
