//! How a run is spread: its plan, which says how many workers and managers there are and by which
//! policy actors are placed, and the manager of each new actor by that policy, with the loads counted.
//! Placing an actor takes no memory.
#![tactic(auto)]

mod loads;
mod placing;
mod plan;
mod policy;
mod threads;

pub use loads::Loads;
pub use placing::place;
pub use plan::Plan;
pub use policy::Policy;
