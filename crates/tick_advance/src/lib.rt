//! The run of a simulation by workers: moment after moment through the world that is kept by managers,
//! each by as many hands as its work pays for. What comes of it is the run of one thread, for every plan.
#![tactic(auto)]

mod closing;
mod hands;
mod log;
mod position;
mod running;
mod sim;
mod stepping;
mod threads;

pub use position::{Position, Progress, Step};
pub use running::{run, run_kept};
pub use sim::Sim;
