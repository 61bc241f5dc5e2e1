//! What one thread would do: the definitions of a world, a moment and a run, and the plain program
//! that computes the run of a setup. The whole engine is measured by them.
#![tactic(auto)]

mod births;
mod cast;
mod closing;
mod crossing;
mod due_set;
mod ids;
mod kind;
mod laws;
mod letters;
mod moment;
mod next;
mod parameters;
mod report;
mod run;
mod settled;
mod setup;
mod stage;
mod world;

pub use births::{Newborn, bear_all, birth_letters, count_births, retired};
pub use cast::{Member, add_members, copy_cast, opening_cast};
pub use ids::merge_ids;
pub use kind::{Kind, SharedKind};
pub use laws::{each_run_ends, each_run_goes_on, each_world_is_whole};
pub use next::Next;
pub use parameters::Parameters;
pub use report::{Fault, Report};
pub use run::{Results, plain_run};
pub use settled::Settled;
pub use setup::{Setup, Start};
pub use stage::{Ended, Stage, Underway};
pub use world::WorldState;
