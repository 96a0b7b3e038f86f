ghost use Rattle.std.specs.Prelude.{◌≡◌, ◌++◌, ◌∷◌, []};

use crate::entry::Entry;
use std::marker::Model;
use std::snapshot::Snapshot;

/// The entries before the last, and the last.
#[derive(Drop)]
pub(crate) struct Past {
    before: Option<Snapshot<Past>>,
    last: Snapshot<Entry>,
}

impl Model for Past {
    ghost use Rattle.std.specs.Prelude.{ℕ, List, ◌++◌, ◌∷◌, [], length};
    ghost use Rattle.std.proofs.Common.{arith, length-append};
    ghost use Rattle.rdb_base.specs.declared.entry.Entry.{Entry};
    ghost use Rattle.rdb_base.specs.Told.{told};

    ghost Value = { List Entry };

    ghost size = { length };

    ghost view = { λ p. told p.before ++ p.last.value ∷ [] };

    ghost size_decreases = { λ a h. Prim.grind (arith, length-append) };
}

/// A list of entries that contracts see. It takes no memory, and nothing that runs can read it.
#[derive(Drop)]
pub struct ToldEntries {
    seen: Option<Snapshot<Past>>,
}

impl Model for ToldEntries {
    ghost use Rattle.std.specs.Prelude.{List};
    ghost use Rattle.rdb_base.specs.declared.entry.Entry.{Entry};
    ghost use Rattle.rdb_base.specs.Told.{told};

    ghost Value = { List Entry };

    ghost view = { λ t. told t.seen };
}

impl ToldEntries {
    /// No entry yet.
    pub fn new() -> ToldEntries
        ensures { result ≡ [] }
    {
        ToldEntries { seen: None }
    }

    /// One entry more, at the end.
    pub fn push(&mut self, entry: &Entry)
        ensures { self.new ≡ self.old ++ entry.now ∷ [] }
    {
        let past = Past {
            before: self.seen.take(),
            last: Snapshot::of(entry),
        };
        self.seen = Some(Snapshot::of(&past));
    }
}
