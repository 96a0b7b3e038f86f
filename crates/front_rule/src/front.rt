//! The seats of a history are made.
ghost use Rattle.std.specs.Prelude.{◌≡◌, ◌≤◌, IfOk, OnOk, OnErr};
ghost use Rattle.front_rule.specs.Rule.{first_pen, first_leaf, first_keeper};
ghost use Rattle.front_rule.specs.Making.{first_passes};
ghost use Rattle.front_rule.specs.Known.{pen_made, pass_made};

use crate::NoMemory;
use crate::desk::Desk;
use crate::front_blank::FrontBlank;
use crate::keeper::Keeper;
use crate::kinds::Making;
use crate::leaf_mark::LeafMark;
use crate::pass::Pass;
use crate::pen::Pen;
use crate::store_name::StoreName;
use std::alloc::Global;
use std::marker::PhantomData;

/// The seats of one history, as they are made.
#[derive(Drop)]
pub struct FrontParts<K: StoreName> {
    pub pen: Pen<K>,
    /// A mark over all keys of the first memtable.
    pub leaf: LeafMark<K>,
    /// One for each caller, in the order of their numbers.
    pub passes: Vec<Pass<K>>,
    pub keeper: Keeper<K>,
    pub desk: Desk<K>,
}

/// The making of a history's seats.
pub struct Front<K: StoreName> {
    of: PhantomData<K>,
}

impl<K: StoreName> Front<K> {
    /// The seats of the blank's history: pen, leaf and keeper, and a pass for each caller from 0 on.
    pub fn make(alloc: Global, blank: FrontBlank, callers: u32) -> Result<FrontParts<K>, NoMemory>
        requires callers { (1 ≤ callers) × (callers ≡ K.callers) }
        requires table { blank.table ≡ K.table }
        requires first { blank.origin.first ≡ K.first }
        ensures pen { IfOk result (λ p. p.pen ≡ first_pen blank.origin callers) }
        ensures leaf { IfOk result (λ p. p.leaf ≡ first_leaf blank.origin) }
        ensures passes { IfOk result (λ p. p.passes.items ≡ first_passes blank.origin callers) }
        ensures keeper { IfOk result (λ p. p.keeper ≡ first_keeper blank.origin) }
    {
        let (mut pen, leaf, keeper) = first_seats::<K>(blank);
        let desk = pen.desk.try_copy()?;
        let mut passes = Vec::with_capacity(alloc, callers as usize)?;
        for caller in 0..callers {
            passes.push(new_pass(&mut pen, caller)?)?;
        }
        Ok(FrontParts {
            pen,
            leaf,
            passes,
            keeper,
            desk,
        })
    }
}

// The one seat of the making is split: the keeper's part is its last, the leaf's the one before.
fn first_seats<K: StoreName>(blank: FrontBlank) -> (Pen<K>, LeafMark<K>, Keeper<K>)
    requires table { blank.table ≡ K.table }
    requires first { blank.origin.first ≡ K.first }
    ensures pen { result.0 ≡ first_pen blank.origin 0 }
    ensures leaf { result.1 ≡ first_leaf blank.origin }
    ensures keeper { result.2 ≡ first_keeper blank.origin }
{
    let origin = blank.origin;
    let desk = Desk::of(blank.board);
    let mut seat = blank.seat;
    let keeper = Keeper {
        badge: desk.cut(&mut seat),
        of: PhantomData,
    };
    let leaf = LeafMark {
        badge: desk.cut(&mut seat),
        front: origin.first,
        memtable: origin.memtable,
        base: origin.first,
        of: PhantomData,
    };
    let pen = Pen {
        seat,
        desk,
        front: origin.first,
        memtable: origin.memtable,
    };
    (pen, leaf, keeper)
}

// The next caller's pass.
fn new_pass<K: StoreName>(pen: &mut Pen<K>, caller: u32) -> Result<Pass<K>, NoMemory>
    requires { caller ≡ pen.old.made }
    ensures pass { IfOk result (λ pass. pass ≡ pass_made pen.old) }
    ensures pen { OnOk result (pen.new ≡ pen_made pen.old) }
    ensures same { OnErr result (pen.new ≡ pen.old) }
{
    let desk = &pen.desk;
    let share = desk.try_copy()?;
    desk.step::<Making>(&mut pen.seat);
    let badge = desk.cut(&mut pen.seat);
    Ok(Pass {
        badge,
        desk: share,
        caller,
        ordinal: 0,
        front: pen.front,
        memtable: pen.memtable,
    })
}
