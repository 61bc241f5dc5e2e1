ghost use Rattle.std.specs.Prelude.{◌≡◌, ◌+◌, ◌≤◌, ◌++◌, [], length, IfOk, OnErr, OnOk};
ghost use Rattle.agenda.specs.Dues.{due_at, least, without_actor, without_tick};
ghost use Rattle.sim_model.specs.Moment.{ask};

use agenda::Agenda;
use sim_base::{ActorId, Memory, Roomy};
use std::alloc::Global;
use std::marker::Model;

/// What one manager keeps of its actors from moment to moment: who of them asked for which tick.
/// Contracts see the pairs, ascending by tick and then by actor.
#[derive(Drop)]
pub struct Domain<G: Agenda> {
    agenda: G,
}

impl<G: Agenda> Model for Domain<G> {
    ghost use Rattle.std.specs.Prelude.{List};
    ghost use Rattle.agenda.specs.declared.due.Due.{Due};

    ghost Value = { List Due };

    ghost view = { λ d. G.pairs d.agenda };
}

impl<G: Agenda> Domain<G> {
    /// The domain in which nobody asked for a tick. Err is want of memory.
    pub fn new(alloc: Global) -> Result<Domain<G>, Memory>
        ensures { IfOk result (λ d. d ≡ []) }
    {
        Ok(Domain {
            agenda: G::new(alloc)?,
        })
    }

    /// An actor asks for ticks. Err is want of memory, and changes nothing.
    pub fn ask(&mut self, actor: ActorId, ticks: &[u64]) -> Result<(), Memory>
        ensures ok { OnOk result (self.new ≡ ask actor self.old ticks.now) }
        ensures err { OnErr result (self.new ≡ self.old) }
    {
        if ticks.is_empty() {
            return Ok(());
        }
        self.agenda.reserve(ticks.len(), actor)?;
        add_all(&mut self.agenda, actor, ticks);
        Ok(())
    }

    /// An actor is gone, with all that it asked for. It takes no memory.
    pub fn retire(&mut self, actor: ActorId)
        ensures { self.new ≡ without_actor actor self.old }
    {
        self.agenda.drop_actor(actor);
    }

    /// How many actors asked for a tick.
    pub fn due(&self, tick: u64) -> usize
        ensures { result ≡ length (due_at tick self.now) }
    {
        self.agenda.due(tick)
    }

    /// Appends the actors that asked for a tick in ascending order, for which there is room, and takes
    /// the tick out. It takes no memory.
    pub fn take_due(&mut self, tick: u64, into: &mut Roomy<ActorId>)
        requires { length (due_at tick self.old) ≤ into.old.spare }
        ensures taken { into.new.list ≡ into.old.list ++ due_at tick self.old }
        ensures left { self.new ≡ without_tick tick self.old }
    {
        self.agenda.take_due(tick, into);
    }

    /// The least tick that an actor asked for.
    pub fn least(&self) -> Option<u64>
        ensures { result ≡ least self.now }
    {
        self.agenda.least()
    }
}

/// Adds ticks of an actor, for which there is room.
fn add_all<G: Agenda>(agenda: &mut G, actor: ActorId, ticks: &[u64])
    requires room { length ticks.now ≤ G.spare agenda.old }
    requires known { actor.0 ≤ G.top agenda.old }
    ensures { G.pairs agenda.new ≡ ask actor (G.pairs agenda.old) ticks.now }
{
    for tick in ticks {
        agenda.add(*tick, actor);
    }
}
