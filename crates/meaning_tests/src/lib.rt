//! Cases of what an actor, a moment and a run mean, with puppets, which do what no kind does. What is
//! expected was worked out by hand.
#![tactic(auto)]

#[cfg(test)]
mod ids_tests;
#[cfg(test)]
mod plain_run_tests;
mod puppet;
#[cfg(test)]
mod settle_tests;

pub use puppet::{LISTENER, Puppet};
