//! A sink that holds back what it gets until an empty piece comes.
ghost use Rattle.std.specs.Prelude.{Some};

use link_model::{Failed, Sink, SteadySink};

#[derive(Drop)]
pub struct Holding {
    pub bytes: SteadySink,
    pub is_passed_on: bool,
}

impl Sink for Holding {
    ghost written = { λ k. Some k.bytes.bytes };

    ghost faults = { λ k. k.bytes.faults };

    ghost is_passed_on = { λ k. k.is_passed_on };

    fn put(&mut self, piece: &[u8]) -> Result<(), Failed> {
        self.is_passed_on = piece.is_empty();
        self.bytes.put(piece)
    }
}
