//! The tree of time managers by which the end of a moment is found. Managers are its leaves, and
//! what is quiet climbs from node to parent until it is known at the root.
//! A tree is made once, and from then on answers without taking memory.
#![tactic(auto)]

mod threads;
mod tree;

pub use tree::Tree;
