use rdb_base::SortedRun;
use std::alloc::Global;
use std::marker::Model;
use std::sync::Arc;

/// A sorted run with several owners, who share one copy. Contracts see the list of its pairs.
#[derive(Drop)]
pub(crate) struct SharedRun {
    run: Arc<SortedRun, Global>,
}

impl Model for SharedRun {
    ghost use Rattle.std.specs.Prelude.{List};
    ghost use Rattle.std.specs.Arc.{arc_value};
    ghost use Rattle.rdb_base.specs.declared.pair.Pair.{Pair};

    ghost Value = { List Pair };

    ghost view = { λ r. arc_value r.run };
}
