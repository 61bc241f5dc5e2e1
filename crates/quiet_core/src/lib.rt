//! The pure core of a round: the counters and accounts by which many hands find out that everything
//! scheduled is reported and every letter acknowledged, and the proof that the root of the counters
//! is reached only then.
#![tactic(auto)]

mod accounts;
mod checks;
mod deed;
mod entry;
mod event;
mod frame;
mod laws;
mod ledger;
mod opening;
mod pairs;
mod refused;
mod round_core;
mod rows;
mod threads;

pub use deed::Deed;
pub use event::CoreEvent;
pub use frame::Frame;
pub use laws::{moves_keep_balance, no_other_condition, root_is_quiet};
pub use opening::opening_words;
pub use refused::{Condition, Refused};
pub use round_core::Core;
