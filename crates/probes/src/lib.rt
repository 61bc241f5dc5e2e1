//! What is sampled in a run: a buffer for each manager, in which rows only rise, and all buffers merged
//! into the rows of the run, in live order. A sieve says which samples are kept.
#![tactic(auto)]

mod buffer;
mod merging;
mod order;
mod sieve;
mod threads;

pub use buffer::Buffer;
pub use merging::merge;
pub use sieve::{KeepAll, Sieve};
