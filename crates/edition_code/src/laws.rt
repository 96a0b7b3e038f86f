//! What holds of every edition, as a call that carries it in its contract. It does nothing.
ghost use Rattle.edition_code.specs.Laws.{EditionReadsBack, EditionWasSpelled, BytesOfOne};

/// An edition is read back as it was spelled, what is read was spelled there, and bytes are those of one edition.
pub fn editions_read_back()
    ensures back { EditionReadsBack }
    ensures spelled { EditionWasSpelled }
    ensures one { BytesOfOne }
{}
