//! Lists that contracts see. They take no memory, and nothing that runs can read them.
ghost use Rattle.std.specs.Prelude.{◌≡◌, ◌++◌, ◌∷◌, []};

use std::marker::Model;
use std::snapshot::Snapshot;

/// The moments before the last, and the last.
#[derive(Drop)]
pub(crate) struct Moments<T: Drop> {
    before: Option<Snapshot<Moments<T>>>,
    last: Snapshot<T>,
}

impl<T: Drop> Model for Moments<T> {
    ghost use Rattle.std.specs.Prelude.{ℕ, List, ◌++◌, ◌∷◌, [], length};
    ghost use Rattle.std.proofs.Common.{arith, length-append};
    ghost use Rattle.disk_model.specs.Told.{told};

    ghost Value = { List T };

    ghost size = { length };

    ghost view = { λ m. told m.before ++ m.last.value ∷ [] };

    ghost size_decreases = { λ a h. Prim.grind (arith, length-append) };
}

/// What something was at each moment before now, oldest first.
#[derive(Drop)]
pub(crate) struct Past<T: Drop> {
    seen: Option<Snapshot<Moments<T>>>,
}

impl<T: Drop> Model for Past<T> {
    ghost use Rattle.std.specs.Prelude.{List};
    ghost use Rattle.disk_model.specs.Told.{told};

    ghost Value = { List T };

    ghost view = { λ p. told p.seen };
}

impl<T: Drop> Past<T> {
    /// No moment yet.
    pub(crate) fn new() -> Past<T>
        ensures { result ≡ [] }
    {
        Past { seen: None }
    }

    /// One moment more, the latest.
    pub(crate) fn push(&mut self, now: &T)
        ensures { self.new ≡ self.old ++ now.now ∷ [] }
    {
        let moments = Moments {
            before: self.seen.take(),
            last: Snapshot::of(now),
        };
        self.seen = Some(Snapshot::of(&moments));
    }
}
