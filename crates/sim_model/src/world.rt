ghost use Rattle.std.specs.Prelude.{◌≡◌, ◌+◌, ◌<◌, ◌^◌, length};
ghost use Rattle.std.specs.Option.{option_copied};
ghost use Rattle.sim_model.specs.Moment.{is_alive, next_id, state_of};

use crate::due_set::DueSet;
use crate::{Member, Parameters};
use actor_trait::Letter;
use sim_base::{ActorId, Items};

/// The world between two moments, or at a moment that is entered and not yet closed.
#[derive(Drop)]
pub struct WorldState<A> {
    /// What the setup says besides its actors.
    pub parameters: Parameters,
    /// The states of the living, by number from 1; None where the actor is gone.
    pub states: Items<Option<A>>,
    /// Who asked for which tick: the living alone.
    pub agenda: DueSet,
    /// The letters that were sent at the moment closed last, to the living: the sends in order of
    /// sender, and after them the letters that tell creators of births.
    pub letters: Items<Letter>,
    /// Those that were born when the moment closed last, ascending.
    pub newborn: Items<ActorId>,
    /// Who is scheduled at the moment that is entered, ascending; empty once it is closed.
    pub scheduled: Items<ActorId>,
    /// Everybody so far, ascending.
    pub cast: Items<Member>,
    /// How many letters found no living recipient; the count stands still at the end of u64.
    pub dead_letters: u64,
}

impl<A> WorldState<A> {
    /// The state of an actor; None where it is gone or was never there.
    pub(crate) fn state_of(&self, id: ActorId) -> Option<&A>
        ensures { option_copied result ≡ state_of self.now.states id }
    {
        find(self.states.as_slice(), id)
    }

    /// The number of the next newborn.
    pub(crate) fn next_id(&self) -> u32
        requires { length self.now.states + 1 < 2 ^ 32 }
        ensures { result ≡ next_id self.now }
    {
        self.states.len() as u32 + 1
    }
}

/// The state of an actor among these, by number from 1.
fn find<A>(states: &[Option<A>], id: ActorId) -> Option<&A>
    ensures { option_copied result ≡ state_of states.now id }
{
    if id.0 == 0 {
        return None;
    }
    match states.get(id.0 as usize - 1) {
        Some(state) => state.as_ref(),
        None => None,
    }
}

/// Whether an actor is alive.
pub(crate) fn is_alive<A>(states: &[Option<A>], id: ActorId) -> bool
    ensures { result ≡ is_alive states.now id }
{
    find(states, id).is_some()
}
