//! A source that gives few bytes at a time.
ghost use Rattle.std.specs.Prelude.{◌<◌, Some};

use link_model::{ByteSource, Failed, Source};

/// A source in memory that gives at most so many bytes a call.
#[derive(Drop)]
pub struct PieceSource {
    pub source: ByteSource,
    pub most: usize,
    ghost some: { 0 < most },
}

impl Source for PieceSource {
    ghost left = { λ s. Some s.source.bytes };

    ghost faults = { λ s. s.source.faults };

    fn take(&mut self, into: &mut [u8]) -> Result<usize, Failed> {
        let most = self.most.min(into.len());
        self.source.take(&mut into[..most])
    }
}
