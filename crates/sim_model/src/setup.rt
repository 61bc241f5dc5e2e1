ghost use Rattle.std.specs.Prelude.{◌≡◌, IfOk};

use crate::Parameters;
use crate::ids::copy_ids;
use actor_trait::Actor;
use sim_base::{ActorId, Items, Memory, Name};
use std::alloc::Global;
use std::marker::Model;

/// An actor that is there from the start.
#[derive(Drop)]
pub struct Start<A> {
    /// Its name.
    pub name: Name,
    /// Its state before its first event.
    pub state: A,
}

/// All that a run is determined by.
#[derive(Drop)]
pub struct Setup<A> {
    /// Fixes the order of inboxes and the draws.
    pub seed: u64,
    /// The last tick that may be entered, 0 to 1,000,000,000.
    pub last_tick: u64,
    /// No moment has this diasca or a later one, 1 to 65,535.
    pub diasca_limit: u32,
    /// The most actors that a run may ever have, 1 to 1,000,000.
    pub max_actors: u32,
    /// The initial actors, at most `max_actors`; their numbers are their places, from 1.
    pub actors: Items<Start<A>>,
    /// The senders whose letters come before all others in an inbox: numbers of initial actors,
    /// ascending, each once.
    pub urgent: Items<ActorId>,
}

impl<A> Model for Setup<A> {
    ghost use Rattle.sim_model.specs.SetupParts.{SetupParts};

    ghost Value = { SetupParts A };

    ghost use Rattle.sim_model.specs.Setups.{IsSetup};

    ghost view = { λ s. record { seed = s.seed; last_tick = s.last_tick; diasca_limit = s.diasca_limit; max_actors = s.max_actors; actors = s.actors; urgent = s.urgent } };

    ghost invariant = { λ s. IsSetup (record { seed = s.seed; last_tick = s.last_tick; diasca_limit = s.diasca_limit; max_actors = s.max_actors; actors = s.actors; urgent = s.urgent }) };
}

impl<A: Actor + Drop> Setup<A> {
    ghost use Rattle.sim_model.specs.Setups.{parameters_of};

    /// An equal setup. Err is want of memory.
    pub fn copy(&self, alloc: Global) -> Result<Setup<A>, Memory>
        ensures { IfOk result (λ copy. copy ≡ self.now) }
    {
        let actors = copy_starts(alloc, self.actors.as_slice())?;
        let own = self.parameters(alloc)?;
        Ok(Setup {
            seed: own.seed,
            last_tick: own.last_tick,
            diasca_limit: own.diasca_limit,
            max_actors: own.max_actors,
            actors,
            urgent: own.urgent,
        })
    }

    /// What it says besides its actors.
    pub(crate) fn parameters(&self, alloc: Global) -> Result<Parameters, Memory>
        ensures { IfOk result (λ p. p ≡ parameters_of self.now) }
    {
        let urgent = copy_ids(alloc, self.urgent.as_slice())?;
        Ok(Parameters {
            seed: self.seed,
            last_tick: self.last_tick,
            diasca_limit: self.diasca_limit,
            max_actors: self.max_actors,
            urgent,
        })
    }
}

/// Equal initial actors.
fn copy_starts<A: Actor + Drop>(
    alloc: Global,
    starts: &[Start<A>],
) -> Result<Items<Start<A>>, Memory>
    ensures { IfOk result (λ copies. copies ≡ starts.now) }
{
    let mut copies = Vec::with_capacity(alloc, starts.len())?;
    for start in starts {
        copies.push(Start {
            name: start.name,
            state: start.state.copy(alloc)?,
        })?;
    }
    Ok(Items::of(copies))
}
