//! What a step is told beside what its seat knows. A step takes no value: its caller picks a type whose one ghost
//! member stands for the value.
use std::marker::Brand;

/// An entry.
pub(crate) trait TellsEntry {
    ghost use Rattle.rdb_base.specs.declared.entry.Entry.{Entry};

    ghost entry: { Entry };
}

impl TellsEntry for Brand {
    ghost use Rattle.front_rule.specs.Marks.{no_entry};

    ghost entry = { no_entry };
}

/// A key.
pub(crate) trait TellsKey {
    ghost use Rattle.std.specs.Prelude.{ℕ, List};

    ghost key: { List ℕ };
}

impl TellsKey for Brand {
    ghost use Rattle.std.specs.Prelude.{[]};

    ghost key = { [] };
}

/// A place in the list, or how many failures were told.
pub(crate) trait TellsNumber {
    ghost use Rattle.std.specs.Prelude.{ℕ};

    ghost number: { ℕ };
}

impl TellsNumber for Brand {
    ghost number = { 0 };
}

/// A live and a next number.
pub(crate) trait TellsNumbers {
    ghost use Rattle.front_rule.specs.declared.parts.LivePart.{LivePart};

    ghost numbers: { LivePart };
}

impl TellsNumbers for Brand {
    ghost use Rattle.front_rule.specs.Marks.{no_live};

    ghost numbers = { no_live };
}
