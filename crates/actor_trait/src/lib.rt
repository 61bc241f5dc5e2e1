//! Actors: what an actor type has to say of itself, what happens to an actor and what comes of it.
//! A run rests on one premise alone, that each method of an actor is its meaning.
#![tactic(auto)]

mod actor;
mod ball;
mod bearing;
mod clock;
mod context;
mod event;
mod faults;
mod fuse;
mod letter;
mod outcome;
mod precedence;
mod threads;

pub use actor::Actor;
pub use ball::Ball;
pub use bearing::Bearing;
pub use clock::Clock;
pub use context::Context;
pub use event::Event;
pub use faults::{FaultCode, fault_among, fault_of};
pub use fuse::Fuse;
pub use letter::{Letter, Parcel, Payload};
pub use outcome::{Outcome, Sample};
pub use precedence::Precedence;
