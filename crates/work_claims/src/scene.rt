use actor_trait::{Actor, Context, Event, Precedence};
use sim_base::{ActorId, ManagerId, Moment};

/// A world at a moment that is entered, as the hands see it: who is scheduled at each manager, and
/// what happens to whom.
pub trait Scene<A: Actor> {
    ghost use Rattle.std.specs.Prelude.{◌≡◌, ◌<◌, ◌≤◌, true, length, Some};
    ghost use Rattle.actor_trait.specs.Seen.{seen};
    ghost use Rattle.sim_model.specs.Moment.{context_at, event_at, state_of};
    ghost use Rattle.work_claims.specs.Placed.{IsPlaced, Placed, id_at, precedence_of, scheduled_at};

    /// The one world, its moment, and where its actors are.
    ghost placed: { Self → Placed A };

    /// How many managers: 1 to 16. A caller learns here what holds while a moment is entered.
    fn managers(&self) -> u32
        ensures managers { result ≡ (placed self.now).managers }
        ensures some { 1 ≤ result }
        ensures few { result ≤ 16 }
        ensures placed { (placed self.now).entered ≡ true → IsPlaced (placed self.now) };

    /// The moment.
    fn now(&self) -> Moment
        ensures { result ≡ (placed self.now).at };

    /// Who is scheduled at a manager, ascending.
    fn scheduled(&self, m: ManagerId) -> &[ActorId]
        requires { m.0 < (placed self.now).managers }
        ensures { result.now ≡ scheduled_at (placed self.now) m.0 };

    /// The state of the actor at a place of `scheduled(m)`.
    fn state_of(&self, m: ManagerId, i: u32) -> &A
        requires entered { (placed self.now).entered ≡ true }
        requires manager { m.0 < (placed self.now).managers }
        requires place { i < length (scheduled_at (placed self.now) m.0) }
        ensures { state_of (placed self.now).world.states (id_at (placed self.now) m.0 i) ≡ Some result.now };

    /// Where its event happens.
    fn context_of(&self, m: ManagerId, i: u32) -> Context
        requires manager { m.0 < (placed self.now).managers }
        requires place { i < length (scheduled_at (placed self.now) m.0) }
        ensures { result ≡ context_at (placed self.now).world (placed self.now).at (id_at (placed self.now) m.0 i) };

    /// Its event.
    fn event_of(&self, m: ManagerId, i: u32) -> Event<'_>
        requires entered { (placed self.now).entered ≡ true }
        requires manager { m.0 < (placed self.now).managers }
        requires place { i < length (scheduled_at (placed self.now) m.0) }
        ensures { seen result.first result.spontaneous result.inbox.now
            ≡ event_at (placed self.now).world (placed self.now).at (id_at (placed self.now) m.0 i) };

    /// The manager to which letters to an actor go.
    fn route(&self, id: ActorId) -> ManagerId
        ensures route { result.0 ≡ (placed self.now).route id }
        ensures within { result.0 < (placed self.now).managers };

    /// In which order the letters come that are sent at the moment.
    fn precedence(&self) -> Precedence<'_>
        requires entered { (placed self.now).entered ≡ true }
        ensures { result ≡ precedence_of (placed self.now) };
}
