use actor_trait::Outcome;
use sim_base::ActorId;

/// What came of an actor's event.
#[derive(Drop)]
pub struct Report<A> {
    /// Who acted.
    pub id: ActorId,
    /// What it did.
    pub outcome: Outcome<A>,
}

/// A fault that an actor shows.
#[derive(Clone, Copy, Debug, PartialEq, Eq)]
pub struct Fault {
    /// Who shows it.
    pub actor: ActorId,
    /// What it is, 1 to 903.
    pub code: u32,
}
