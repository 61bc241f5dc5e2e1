use sim_base::ActorId;

/// That an actor asked for a tick. Ordered by tick, then by actor.
#[derive(Clone, Copy, Debug, PartialEq, Eq, PartialOrd, Ord)]
pub struct Due {
    /// The tick at which the actor wants to act.
    pub tick: u64,
    /// Who asked for it.
    pub actor: ActorId,
}
