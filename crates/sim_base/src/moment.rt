ghost use Rattle.std.specs.Prelude.{◌↔◌, IsTrue};
ghost use Rattle.sim_base.specs.Moments.{IsBefore};

use crate::ActorId;

/// A point of simulated time: a tick, and within it a diasca. Ordered by tick, then by diasca.
#[derive(Clone, Copy, Debug, PartialEq, Eq, PartialOrd, Ord, Hash)]
pub struct Moment {
    /// The tick, from 0: any number of a u64.
    pub tick: u64,
    /// The diasca within the tick, from 0: what is done of itself is at 0.
    pub diasca: u32,
}

impl Moment {
    /// Whether it comes before another.
    pub fn is_before(self, other: Moment) -> bool
        ensures { IsTrue result ↔ IsBefore self other }
    {
        self < other
    }
}

/// How a run ended.
#[derive(Clone, Copy, Debug, PartialEq, Eq)]
pub enum Ending {
    /// Nobody is scheduled any more, and no agenda holds a tick.
    Exhausted,
    /// The next tick that is asked is past the last one.
    TickLimit,
    /// Somebody would be scheduled at the diasca that is the limit.
    DiascaLimit,
    /// An actor showed a fault.
    Fault {
        /// The actor, from 1.
        actor: ActorId,
        /// The code of the fault, from 1: to 899 an actor's own, from 900 the engine's.
        code: u32,
    },
}

/// One sample as a run records it.
#[derive(Clone, Copy, Debug, PartialEq, Eq)]
pub struct Row {
    /// The moment that it was taken at.
    pub at: Moment,
    /// The actor whose it is, from 1.
    pub actor: ActorId,
    /// The probe, as its number among those of the actor's kind, from 0.
    pub probe: u32,
    /// The value, in the probe's own unit: any number of an i64.
    pub value: i64,
}
