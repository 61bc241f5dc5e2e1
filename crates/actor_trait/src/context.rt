ghost use Rattle.std.specs.Prelude.{◌≡◌, ◌<◌, ◌≤◌};

use hash_seed::draw;
use sim_base::{ActorId, Moment};

/// Where an event happens.
#[derive(Clone, Copy, Debug, PartialEq, Eq)]
pub struct Context {
    /// The seed of the run.
    pub seed: u64,
    /// The present moment.
    pub now: Moment,
    /// The actor's own number.
    pub me: ActorId,
}

impl Context {
    ghost use Rattle.actor_trait.specs.ContextDraws.{draw_in};

    /// Draw `k` of the actor at this moment: a number from 0 to `bound` - 1. It is a function of the
    /// seed, the moment, the actor, `k` and the bound alone, so draws may be made in any order, and the
    /// same draw is always the same number.
    pub fn draw(&self, k: u32, bound: u64) -> u64
        requires { 1 ≤ bound }
        ensures value { result ≡ draw_in self.entry.now k bound }
        ensures below { result < bound }
    {
        let at = self.now;
        draw(self.seed, at.tick, at.diasca, self.me.0, k, bound)
    }
}
