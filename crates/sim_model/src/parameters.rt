use sim_base::{ActorId, Items};

/// What a setup says besides its actors. No step of a run changes it.
#[derive(Drop)]
pub struct Parameters {
    /// Fixes the order of inboxes and the draws.
    pub seed: u64,
    /// The last tick that may be entered, 0 to 1,000,000,000.
    pub last_tick: u64,
    /// No moment has this diasca or a later one, 1 to 65,535.
    pub diasca_limit: u32,
    /// The most actors that a run may ever have, 1 to 1,000,000.
    pub max_actors: u32,
    /// The senders whose letters come before all others in an inbox, ascending, each once.
    pub urgent: Items<ActorId>,
}
