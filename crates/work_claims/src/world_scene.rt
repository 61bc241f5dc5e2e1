use crate::scene::Scene;
use actor_trait::{Actor, Context, Event, Precedence};
use agenda::Agenda;
use local_manager::World;
use sim_base::{ActorId, ManagerId, Moment};

impl<A: Actor + Drop, G: Agenda + Drop> Scene<A> for World<A, G> {
    ghost use Rattle.work_claims.specs.Worlds.{placed_in};

    ghost placed = { placed_in };

    fn managers(&self) -> u32 {
        World::managers(self)
    }

    fn now(&self) -> Moment {
        World::now(self)
    }

    fn scheduled(&self, m: ManagerId) -> &[ActorId] {
        World::scheduled(self, m)
    }

    fn state_of(&self, m: ManagerId, i: u32) -> &A {
        World::state_of(self, m, i)
    }

    fn context_of(&self, m: ManagerId, i: u32) -> Context {
        World::context_of(self, m, i)
    }

    fn event_of(&self, m: ManagerId, i: u32) -> Event<'_> {
        World::event_of(self, m, i)
    }

    fn route(&self, id: ActorId) -> ManagerId {
        World::route(self, id)
    }

    fn precedence(&self) -> Precedence<'_> {
        let _managers = World::managers(self);
        let parameters = self.parameters();
        Precedence {
            seed: parameters.seed,
            sent: World::now(self),
            urgent: parameters.urgent.as_slice(),
        }
    }
}
