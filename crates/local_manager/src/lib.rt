//! The world as the engine keeps it: its managers, each with an agenda of its own and a list of who of
//! its actors is scheduled, the states by number, and the letters of a moment linked by index. Contracts
//! see the one world of the definitions.
#![tactic(auto)]

mod actors;
mod called;
mod closing;
mod directory;
mod domain;
mod lists;
mod numbers;
mod opened;
mod phase;
mod posting;
mod room;
mod states;
mod threads;
mod world;

pub use domain::Domain;
pub use opened::Span;
pub use phase::Phase;
pub use room::Room;
pub use world::World;
