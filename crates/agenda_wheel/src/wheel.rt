ghost use Rattle.std.specs.Prelude.{◌≡◌, ◌≢◌, ◌+◌, ◌<◌, ◌≤◌, ℕ, length};
ghost use Rattle.agenda.specs.Dues.{add_due, without_actor, ticks_of as ticks_in};

use crate::growth::{filled, grow_by, make_room};
use crate::leasts::is_least;
use crate::levels::Leasts;
use crate::links::{NIL, Node};
use crate::moves::{add_pair, drop_all, drop_each, take_all};
use crate::walks::{BUCKETS, count_at, ticks_from};
use agenda::{Agenda, Due};
use sim_base::{ActorId, Items, Memory, Roomy, Steps};
use std::alloc::Global;
use std::marker::Model;
use std::sync::ledger::Ledger;

/// An agenda as a wheel: nodes in one vector, each used one linked in the list of its bucket, which
/// is its tick modulo 1,024, and in that of its actor. Free nodes are a list of the same linking.
#[derive(Drop)]
pub struct WheelAgenda {
    nodes: Vec<Node>,
    /// The first node of each bucket.
    ticks: Vec<u32>,
    /// The first free node, and then the first node of each actor.
    actors: Vec<u32>,
    /// The least tick of each bucket.
    leasts: Leasts,
    /// No pair is below it.
    floor: u64,
    /// How many nodes are free.
    spare: usize,
}

impl Model for WheelAgenda {
    ghost use Rattle.agenda.specs.Kept.{Kept};
    ghost use Rattle.agenda_wheel.specs.Kept.{kept_by, IsWhole};

    ghost Value = { Kept };

    ghost view = { λ w. kept_by w.nodes.items w.actors.items w.spare };

    ghost invariant = { λ w. IsWhole w.nodes.items w.ticks.items w.actors.items w.leasts w.floor w.spare };
}

// What no pair is below, once a tick's pairs are gone.
fn floor_without(floor: u64, tick: u64) -> u64
    ensures { (t : ℕ) → floor ≤ t → t ≢ tick → result ≤ t }
{
    if tick == floor {
        tick.saturating_add(1)
    } else {
        floor
    }
}

impl WheelAgenda {
    /// Removes all pairs of an actor as `drop_actor` does, with one step for each pair.
    pub fn drop_counted<L: Ledger>(&mut self, actor: ActorId, steps: &mut Steps<L>)
        ensures left { self.new.pairs ≡ without_actor actor self.old.pairs }
        ensures count { steps.new ≡ steps.old + length (ticks_in actor self.old.pairs) }
        ensures spare { self.old.spare ≤ self.new.spare }
        ensures top { self.new.top ≡ self.old.top }
    {
        if (actor.0 as usize) < self.actors.len() - 1 {
            self.spare += drop_all(
                self.nodes.as_mut_slice(),
                self.ticks.as_mut_slice(),
                self.actors.as_mut_slice(),
                &mut self.leasts,
                actor,
                steps,
            );
        }
    }
}

impl Agenda for WheelAgenda {
    ghost pairs = { λ a. a.pairs };

    ghost spare = { λ a. a.spare };

    ghost top = { λ a. a.top };

    fn new(alloc: Global) -> Result<Self, Memory> {
        Ok(WheelAgenda {
            nodes: Vec::new(alloc),
            ticks: filled(alloc, NIL, BUCKETS as usize)?,
            actors: filled(alloc, NIL, 2)?,
            leasts: Leasts::new(alloc)?,
            floor: u64::MAX,
            spare: 0,
        })
    }

    fn reserve(&mut self, count: usize, id: ActorId) -> Result<(), Memory> {
        let more = count.saturating_sub(self.spare);
        if more > NIL as usize - self.nodes.len() {
            return Err(Memory);
        }
        make_room(&mut self.nodes, &mut self.actors, more, id.0 as usize + 2)?;
        grow_by(
            &mut self.nodes,
            self.ticks.as_slice(),
            self.actors.as_mut_slice(),
            more,
        );
        self.spare += more;
        Ok(())
    }

    fn add(&mut self, tick: u64, actor: ActorId) {
        self.floor = self.floor.min(tick);
        if add_pair(
            self.nodes.as_mut_slice(),
            self.ticks.as_mut_slice(),
            self.actors.as_mut_slice(),
            &mut self.leasts,
            Due { tick, actor },
        ) {
            self.spare -= 1;
        }
    }

    fn due(&self, tick: u64) -> usize {
        count_at(self.nodes.as_slice(), self.ticks.as_slice(), tick)
    }

    fn take_due(&mut self, tick: u64, into: &mut Roomy<ActorId>) {
        self.spare += take_all(
            self.nodes.as_mut_slice(),
            self.ticks.as_mut_slice(),
            self.actors.as_mut_slice(),
            &mut self.leasts,
            tick,
            into,
        );
        self.floor = floor_without(self.floor, tick);
    }

    fn drop_actor(&mut self, actor: ActorId) {
        if (actor.0 as usize) < self.actors.len() - 1 {
            self.spare += drop_each(
                self.nodes.as_mut_slice(),
                self.ticks.as_mut_slice(),
                self.actors.as_mut_slice(),
                &mut self.leasts,
                actor,
            );
        }
    }

    // No pair is below the floor, so where its bucket has it none is less.
    fn least(&self) -> Option<u64> {
        if is_least(&self.leasts, self.floor) {
            Some(self.floor)
        } else {
            self.leasts.least()
        }
    }

    fn ticks_of(&self, alloc: Global, actor: ActorId) -> Result<Items<u64>, Memory> {
        if (actor.0 as usize) < self.actors.len() - 1 {
            let ticks = ticks_from(self.nodes.as_slice(), self.actors.as_slice(), alloc, actor)?;
            Ok(Items::of(ticks))
        } else {
            Ok(Items::new(alloc))
        }
    }
}
