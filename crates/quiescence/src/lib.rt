//! The running round: the counters of quiet_core on shared words, and its accounts on the seats of a
//! table. Many hands move the words, each by single atomic operations, and `finish` answers `Closed`
//! exactly where the root is reached.
#![tactic(auto)]

mod answers;
mod climbing;
mod ended;
mod hand;
mod opening;
mod regroup;
mod round;
mod rounds;
mod rule;
mod threads;

pub use answers::{After, Claim, Turn};
pub use ended::{Closed, Unfinished};
pub use hand::Hand;
pub use round::Round;
pub use rounds::Rounds;
