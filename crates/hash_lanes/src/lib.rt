//! The keys of many letters, four at a time: SHA-256 on four blocks side by side.
#![tactic(auto)]

mod batch;
mod consts;
mod keys;
mod lanes;
mod rounds;
mod threads;

pub use batch::{LetterName, letter_keys};
