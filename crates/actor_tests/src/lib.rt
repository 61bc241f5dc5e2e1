//! Cases of the actors, of what they do at an event and which faults they show. Expected values were worked
//! out by hand, or by Python's hashlib.
#![tactic(auto)]

#[cfg(test)]
mod actor_tests;
#[cfg(test)]
mod road_tests;
#[cfg(test)]
mod soda_tests;
#[cfg(test)]
mod steps;
