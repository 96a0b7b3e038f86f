ghost use Rattle.std.specs.Prelude.{◌≡◌, ◌++◌, ◌∷◌, []};

use std::marker::Model;
use std::snapshot::Snapshot;

/// The numbers before the last, and the last.
#[derive(Drop)]
pub(crate) struct Past {
    before: Option<Snapshot<Past>>,
    last: u64,
}

impl Model for Past {
    ghost use Rattle.std.specs.Prelude.{ℕ, List, ◌++◌, ◌∷◌, [], length};
    ghost use Rattle.std.proofs.Common.{arith, length-append};
    ghost use Rattle.edition_code.specs.Told.{told};

    ghost Value = { List ℕ };

    ghost size = { length };

    ghost view = { λ p. told p.before ++ p.last ∷ [] };

    ghost size_decreases = { λ a h. Prim.grind (arith, length-append) };
}

/// A list of numbers that contracts see. It takes no memory, and nothing that runs can read it.
#[derive(Drop)]
pub(crate) struct ToldNumbers {
    seen: Option<Snapshot<Past>>,
}

impl Model for ToldNumbers {
    ghost use Rattle.std.specs.Prelude.{ℕ, List};
    ghost use Rattle.edition_code.specs.Told.{told};

    ghost Value = { List ℕ };

    ghost view = { λ t. told t.seen };
}

impl ToldNumbers {
    /// No number yet.
    pub(crate) fn new() -> ToldNumbers
        ensures { result ≡ [] }
    {
        ToldNumbers { seen: None }
    }

    /// One number more, at the end.
    pub(crate) fn push(&mut self, number: u64)
        ensures { self.new ≡ self.old ++ number ∷ [] }
    {
        let past = Past {
            before: self.seen.take(),
            last: number,
        };
        self.seen = Some(Snapshot::of(&past));
    }
}
