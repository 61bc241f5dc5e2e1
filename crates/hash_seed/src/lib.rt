//! What a seed decides: the keys by which letters are ordered, and the draws of actors. Each is a
//! function of the seed, of the moment and of who asks, by SHA-256 (FIPS 180-4), so that no order of
//! threads or of calls can change it.
#![tactic(auto)]

mod draws;
mod key;
mod threads;

pub use draws::draw;
pub use key::{Key, letter_key};
