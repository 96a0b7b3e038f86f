ghost use Rattle.std.specs.Prelude.{◌≡◌};
ghost use Rattle.manifest_core.specs.declared.manifest_error.ManifestError.TheVariants.{Memory};

use disk_model::FaultUnit;
use std::alloc::{AllocError, AllocFailed};
use thiserror::Error;

/// Why two strips are not opened as a manifest.
#[derive(Debug, Drop, Error)]
pub enum ManifestError {
    /// A call of a strip failed: its unit.
    #[error("{0} failed")]
    Fault(FaultUnit),
    /// Whole frames end at this place of the strip, in bytes. An open gate stands there, and no whole frame.
    #[error("TornHeader strip {strip} at {at}")]
    TornHeader { strip: u8, at: u64 },
    /// The last frame of the strip is no edition: the first wrong field of its payload begins at this place of the strip,
    /// in bytes. Or the last frames of both strips have one number: then it is the place of the second strip's frame.
    #[error("BadManifest strip {strip} at {at}")]
    BadManifest { strip: u8, at: u64 },
    /// Out of memory.
    #[error("out of memory")]
    Memory,
}

impl From<AllocError> for ManifestError {
    ghost from_gives = { λ _ e. e ≡ Memory };

    fn from(_: AllocError) -> Self {
        ManifestError::Memory
    }
}
