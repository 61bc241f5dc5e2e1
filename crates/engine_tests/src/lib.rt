//! Runs by workers, whole and in pieces, beside the run of one thread. What is expected of a scenario comes
//! from a program apart from this one, what is expected of elders was worked out by hand.
#![tactic(auto)]

#[cfg(test)]
mod cases;
mod elder;
#[cfg(test)]
mod pieces;
#[cfg(test)]
mod runs;

pub use elder::Elder;
