use crate::edition_part::EditionPart;
use std::alloc::Global;
use std::marker::Model;
use std::sync::Arc;

/// The partitions of an edition, in key order. Their owners share one copy. Contracts see them as a list.
#[derive(Drop)]
pub(crate) struct EditionParts {
    parts: Arc<Vec<EditionPart>, Global>,
}

impl Model for EditionParts {
    ghost use Rattle.std.specs.Prelude.{List};
    ghost use Rattle.std.specs.Arc.{arc_value};
    ghost use Rattle.store_core.specs.declared.edition_part.EditionPart.{EditionPart};

    ghost Value = { List EditionPart };

    ghost view = { λ p. (arc_value p.parts).items };
}
