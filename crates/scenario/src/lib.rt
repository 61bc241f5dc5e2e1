//! The format of scenarios: actors of any kind, and scenarios read from a text and printed as one.
#![tactic(auto)]

mod actors;
mod any_actor;
mod contents;
mod fields;
mod formatter_out;
mod generating;
mod names;
mod pieces;
mod printing;
mod reading;
mod refusal;
mod refusal_line;
mod selection;
mod table;
mod threads;
mod urgent;
mod whole;

pub use any_actor::AnyActor;
pub use pieces::{Broken, write_numbered, write_piece};
pub use refusal::{FieldText, Place, Refusal, ScenarioFault};
pub use refusal_line::write_scenario_line;
pub use whole::{RuleText, Scenario};
