//! The agenda as a wheel linked by index. README.md tells the idea and the state.
#![tactic(auto)]

mod growth;
mod leasts;
mod levels;
mod links;
mod moves;
mod threads;
mod walks;
mod wheel;

pub use wheel::WheelAgenda;
