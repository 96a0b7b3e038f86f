//! What holds of every block, as a call that carries it in its contract. It does nothing.
ghost use Rattle.block_code.specs.Laws.{BlockReadsBack, BlockWasSpelled};

/// A block is read back as it was spelled, whatever follows, and what is read was spelled there.
pub fn blocks_read_back()
    ensures block { BlockReadsBack }
    ensures spelled { BlockWasSpelled }
{}
