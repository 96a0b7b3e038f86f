ghost use Rattle.std.specs.Prelude.{◌≡◌, ◌<◌, IfOk, OnErr, OnOk};
ghost use Rattle.worm_core.specs.Events.{StepsTo, HasNoStep, IsReached};
ghost use Rattle.worm_core.specs.Refusals.{OnNoStep};
ghost use Rattle.worm_core.specs.States.{world_of};
ghost use Rattle.worm_core.specs.Worlds.{leaves_of};

use crate::answering::answer_at;
use crate::entering::enter;
use crate::going_right::go_right;
use crate::leaf_answer::LeafAnswer;
use crate::leaf_event::LeafEvent;
use crate::putting::put_pair;
use crate::refused::Refused;
use crate::split::Split;
use crate::splitting::split_leaf;
use crate::walker::Walker;
use rdb_base::NoMemory;
use std::alloc::Global;
use std::collections::BTreeMap;
use worm_leaf::Leaf;

/// All that a world keeps.
#[derive(Drop)]
pub(crate) struct State {
    /// By number. There is none before the first event; leaf 0 is then one without a pair.
    pub(crate) leaves: Vec<Leaf>,
    /// In the order in which they happened.
    pub(crate) splits: Vec<Split>,
    /// So many of them are in the table by which walkers enter.
    pub(crate) published: u64,
    /// By number.
    pub(crate) walkers: BTreeMap<u32, Walker>,
}

impl State {
    /// One event. Refused, it changes nothing.
    pub(crate) fn happen(&mut self, alloc: Global, event: LeafEvent) -> Result<LeafAnswer, Refused>
        requires { IsReached (world_of self.old) }
        ensures step { IfOk result (λ answer. StepsTo (world_of self.old) event answer (world_of self.new)) }
        ensures none { OnNoStep result (HasNoStep (world_of self.old) event) }
        ensures same { OnErr result (world_of self.new ≡ world_of self.old) }
    {
        make_first(alloc, &mut self.leaves)?;
        match event {
            LeafEvent::Put { walker, pair } => {
                match put_pair(&mut self.leaves, &self.walkers, walker, pair) {
                    Some(()) => Ok(LeafAnswer::Done),
                    None => Err(Refused::NoStep),
                }
            }
            LeafEvent::Split { leaf } => {
                split_leaf(alloc, &mut self.leaves, &mut self.splits, leaf)
            }
            LeafEvent::Publish { adds } => {
                if adds < self.published || adds > self.splits.len() as u64 {
                    return Err(Refused::NoStep);
                }
                self.published = adds;
                Ok(LeafAnswer::Done)
            }
            LeafEvent::Enter { walker, key } => {
                let leaf = enter(&self.splits, self.published, &mut self.walkers, walker, key)?;
                Ok(LeafAnswer::At { leaf })
            }
            LeafEvent::Right { walker } => match go_right(&self.leaves, &mut self.walkers, walker) {
                Some(leaf) => Ok(LeafAnswer::At { leaf }),
                None => Err(Refused::NoStep),
            },
            LeafEvent::Answer { walker } => {
                answer_at(alloc, &self.leaves, &self.walkers, walker)
            }
        }
    }
}

/// Makes leaf 0 where no leaf is made yet.
fn make_first(alloc: Global, leaves: &mut Vec<Leaf>) -> Result<(), NoMemory>
    ensures same { leaves_of leaves.new.items ≡ leaves_of leaves.old.items }
    ensures made { OnOk result (leaves.new.items ≡ leaves_of leaves.new.items) }
{
    if leaves.is_empty() {
        leaves.push(Leaf::make(alloc)?)?;
    }
    Ok(())
}
