//! The name of one history.
ghost use Rattle.std.specs.Prelude.{ℕ, List, []};

use std::marker::Brand;

/// Names one history: which one it is that a seat, a log or a store speaks of. It has no function; contracts alone see
/// its members.
///
/// Each type that holds a seat has a parameter `K: StoreName`. So two values with one `K` are of one history, even
/// where they come from under different locks. A program first recovers, and then calls a function that is generic in
/// `K`; for that call `K` is `Brand`, whose members stand for what was recovered.
pub trait StoreName {
    ghost use Rattle.atomic_table.specs.Seated.{TableId};
    ghost use Rattle.rdb_base.specs.declared.row.Row.{Row};
    ghost use Rattle.rdb_base.specs.declared.pair.Pair.{Pair};
    ghost use Rattle.rdb_base.specs.declared.entry.Entry.{Entry};
    ghost use Rattle.disk_model.specs.Facts.{DeviceFacts};

    /// The map that the history begins with.
    ghost base: { List Row };

    /// The number of its first entry.
    ghost first: { ℕ };

    /// How many callers it has.
    ghost callers: { ℕ };

    /// The table of its word.
    ghost table: { TableId };

    /// Of the entries that opening read from the log, the newest change at each key that tables do not have: `base` is
    /// what they leave over the tables.
    ghost recovered: { List Pair };

    /// The entries that opening read from the log. The log stands for these, and then for the history's.
    ghost read: { List Entry };

    /// The number of the first of them.
    ghost start: { ℕ };

    /// By the number of each device: what never changes of it.
    ghost devices: { List DeviceFacts };

    /// By the number of each device: how many failures were counted when the store was opened.
    ghost opened: { List ℕ };
}

impl StoreName for Brand {
    ghost use Rattle.front_rule.specs.StoreNames.{no_table};

    ghost base = { [] };

    ghost first = { 0 };

    ghost callers = { 0 };

    ghost table = { no_table };

    ghost recovered = { [] };

    ghost read = { [] };

    ghost start = { 0 };

    ghost devices = { [] };

    ghost opened = { [] };
}
