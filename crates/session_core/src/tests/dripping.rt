//! A source that gives one byte at a time.
ghost use Rattle.std.specs.Prelude.{◌<◌, Some};

use link_model::{Failed, Source, SteadySource};

#[derive(Drop)]
pub struct Dripping {
    pub bytes: SteadySource,
}

impl Source for Dripping {
    ghost left = { λ s. Some s.bytes.bytes };

    ghost faults = { λ _. 0 };

    fn take(&mut self, into: &mut [u8]) -> Result<usize, Failed> {
        self.bytes.take(&mut into[..1])
    }
}
