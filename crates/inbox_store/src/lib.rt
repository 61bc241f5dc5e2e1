//! The letters of a moment: for each recipient a list, all of them linked by index through one vector
//! that is used again from moment to moment. Once room is reserved, putting a letter and draining a
//! list take no memory.
#![tactic(auto)]

mod chains;
mod letter_store;
mod threads;

pub use letter_store::LetterStore;
