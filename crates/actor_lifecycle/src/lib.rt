//! What the reports of a moment bring: the first fault, which ends the run, or those who are born with
//! the letters that tell of them, and those who leave.
#![tactic(auto)]

mod law;
mod settling;

pub use law::each_moment_can_be_settled;
pub use settling::settle;
