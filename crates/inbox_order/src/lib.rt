//! The order of inboxes: the letters of a moment, sorted out by recipient, each inbox in the order
//! that its precedence gives it. That order depends on what was sent and on nothing else, so it is the
//! same whichever thread sent first.
#![tactic(auto)]

mod groups;
mod inboxes;
mod index;
mod keyed;
mod names;
mod order;
mod spots;
mod threads;

pub use inboxes::Inboxes;
pub use order::order_inbox;
