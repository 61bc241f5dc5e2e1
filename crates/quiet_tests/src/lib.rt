//! Cases for the round of a diasca: where actors are placed, the tree of managers, the core event by
//! event, and the running round with its hands in threads. Their expected values come from a program
//! apart from this one, or were counted by hand.
#![tactic(auto)]

#[cfg(test)]
mod core_events;
#[cfg(test)]
mod placements;
#[cfg(test)]
mod running_round;
#[cfg(test)]
mod trees;
