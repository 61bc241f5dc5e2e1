//! Runs of a world that is kept by managers, moment by moment on one thread, beside the one-thread run
//! of the definitions.
#![tactic(auto)]

mod driver;
mod moments;
mod reporting;
#[cfg(test)]
mod runs;

pub use driver::{Driven, Standing, drive};
