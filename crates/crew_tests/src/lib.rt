//! Moments by many hands, beside what the definitions make of them. What they are compared with comes from
//! a program apart from this one.
#![tactic(auto)]

mod closing;
#[cfg(test)]
mod gates;
#[cfg(test)]
mod moments;
mod scribe;

pub use closing::enter_next;
pub use scribe::{Page, Scribe};
