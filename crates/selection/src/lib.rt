//! Which samples of a run may stand in its text, so that a run needn't keep the others.
#![tactic(auto)]

mod selection;
mod threads;

pub use selection::Selection;
