use crate::member::Member;
use std::alloc::Global;
use std::marker::Model;
use std::sync::Arc;

/// Frozen members, the newest first. Their owners share one copy. Contracts see them as a list.
#[derive(Drop)]
pub(crate) struct MemberList {
    members: Arc<Vec<Member>, Global>,
}

impl Model for MemberList {
    ghost use Rattle.std.specs.Prelude.{List};
    ghost use Rattle.std.specs.Arc.{arc_value};
    ghost use Rattle.store_core.specs.declared.member.Member.{Member};

    ghost Value = { List Member };

    ghost view = { λ m. (arc_value m.members).items };
}
