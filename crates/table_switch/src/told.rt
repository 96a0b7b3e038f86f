use crate::appended::Appended;
use crate::front::Front;
use std::marker::Model;

/// An anchor that was appended, with the front that it ends: what the two copies are told.
#[derive(Drop)]
pub struct Told {
    pub(crate) appended: Appended,
    pub(crate) front: Front,
}

impl Model for Told {
    ghost use Rattle.table_switch.specs.Published.{ToldState};

    ghost Value = { ToldState };

    ghost view = { λ t. record { last = t.appended; front = t.front } };
}
