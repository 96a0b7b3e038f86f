ghost use Rattle.std.specs.Prelude.{◌≡◌, IfOk, IfErr, OnErr};
ghost use Rattle.worm_core.specs.Events.{StepsTo, RunsTo, HasNoStep};
ghost use Rattle.worm_core.specs.Refusals.{OnNoStep, TellsNoStep, StopsAt};
ghost use Rattle.worm_core.specs.Worlds.{opening};

use crate::leaf_answer::LeafAnswer;
use crate::leaf_event::LeafEvent;
use crate::leaf_world_error::LeafWorldError;
use crate::refused::Refused;
use crate::state::State;
use std::alloc::Global;
use std::collections::BTreeMap;
use std::marker::Model;

/// Leaves, the splits that made them, a table that is published late, and walkers. Events change it one after the
/// other. Contracts see the world, which is one that events lead to from the opening.
#[derive(Drop)]
pub struct LeafWorld {
    state: State,
}

impl Model for LeafWorld {
    ghost use Rattle.worm_core.specs.Events.{IsReached};
    ghost use Rattle.worm_core.specs.States.{world_of};
    ghost use Rattle.worm_core.specs.Worlds.{World};

    ghost Value = { World };

    ghost view = { λ w. world_of w.state };

    ghost invariant = { λ w. IsReached (world_of w.state) };
}

impl LeafWorld {
    /// The world at its beginning: leaf 0 is over all keys, nothing is published, and nobody walks.
    pub fn new(alloc: Global) -> LeafWorld
        ensures { result ≡ opening }
    {
        LeafWorld {
            state: State {
                leaves: Vec::new(alloc),
                splits: Vec::new(alloc),
                published: 0,
                walkers: BTreeMap::new(alloc),
            },
        }
    }

    /// One event. Where it has no step, the error names it by 0, and the world stays as it was; out of memory, too.
    pub fn step(&mut self, alloc: Global, event: LeafEvent) -> Result<LeafAnswer, LeafWorldError>
        ensures step { IfOk result (λ answer. StepsTo self.old event answer self.new) }
        ensures none { IfErr result (λ error. TellsNoStep error 0 self.old event) }
        ensures same { OnErr result (self.new ≡ self.old) }
    {
        match self.happen(alloc, event) {
            Ok(answer) => Ok(answer),
            Err(refused) => Err(refused.at(0)),
        }
    }

    /// Events, one after the other, with their answers. The first one that has no step is named by its place, and ends
    /// the run. The events before it have happened; out of memory, some of the first ones have.
    pub fn run(
        &mut self,
        alloc: Global,
        events: Vec<LeafEvent>,
    ) -> Result<Vec<LeafAnswer>, LeafWorldError>
        ensures run { IfOk result (λ answers. RunsTo self.old events.items answers.items self.new) }
        ensures stops { IfErr result (λ error. StopsAt self.old events.items error self.new) }
    {
        let mut answers = Vec::with_capacity(alloc, events.len())?;
        let mut number = 0;
        'events: for event in events {
            match self.happen(alloc, event) {
                Ok(answer) => answers.push_reserved(answer),
                Err(refused) => return Err(refused.at(number)),
            }
            number += 1;
        }
        Ok(answers)
    }

    /// One event. Refused, it changes nothing.
    fn happen(&mut self, alloc: Global, event: LeafEvent) -> Result<LeafAnswer, Refused>
        ensures step { IfOk result (λ answer. StepsTo self.old event answer self.new) }
        ensures none { OnNoStep result (HasNoStep self.old event) }
        ensures same { OnErr result (self.new ≡ self.old) }
    {
        self.state.happen(alloc, event)
    }
}
