ghost use Rattle.std.specs.Prelude.{◌≡◌, ◌++◌, [], ◌∷◌, OnOk, OnErr, IfOk};
ghost use Rattle.remix_view.specs.KeptSegments.{segments_kept};

use crate::segment::Segment;
use std::alloc::{AllocError as NoMemory, Global};
use std::sync::Arc;

/// The segments of a view: its own while it grows, shared once it is sealed.
#[derive(Drop)]
pub(crate) enum Segments {
    Owned(Vec<Segment>),
    Shared(Arc<Vec<Segment>, Global>),
}

impl Segments {
    pub(crate) fn as_slice(&self) -> &[Segment]
        ensures { result.now ≡ segments_kept self.now }
    {
        match self {
            Segments::Owned(segments) => segments.as_slice(),
            Segments::Shared(segments) => segments.as_slice(),
        }
    }

    /// The same segments, in one allocation that others may share.
    pub(crate) fn seal(self, alloc: Global) -> Result<Segments, NoMemory>
        ensures { IfOk result (λ segments. segments_kept segments ≡ segments_kept self) }
    {
        match self {
            Segments::Owned(segments) => Ok(Segments::Shared(Arc::new(alloc, segments)?)),
            Segments::Shared(segments) => Ok(Segments::Shared(segments)),
        }
    }

    /// The same segments again. Sealed ones are shared, others are copied.
    pub(crate) fn share(&self, alloc: Global) -> Result<Segments, NoMemory>
        ensures { IfOk result (λ segments. segments_kept segments ≡ segments_kept self.now) }
    {
        match self {
            Segments::Owned(segments) => {
                Ok(Segments::Owned(Vec::from_slice(alloc, segments.as_slice())?))
            }
            Segments::Shared(segments) => Ok(Segments::Shared(Arc::try_clone(segments)?)),
        }
    }

    /// Adds a segment. Shared ones are copied first.
    pub(crate) fn push(&mut self, alloc: Global, segment: Segment) -> Result<(), NoMemory>
        ensures added { OnOk result (segments_kept self.new ≡ segments_kept self.old ++ segment ∷ []) }
        ensures same { OnErr result (segments_kept self.new ≡ segments_kept self.old) }
    {
        match self {
            Segments::Owned(segments) => {
                segments.push(segment)?;
                Ok(())
            }
            Segments::Shared(segments) => {
                let mut copy = Vec::from_slice(alloc, segments.as_slice())?;
                copy.push(segment)?;
                *self = Segments::Owned(copy);
                Ok(())
            }
        }
    }
}
