//! Cases of the scenario format through its public calls: refused texts, canonical texts, upgrades, generated
//! groups, and actors of any kind. What is expected was worked out by hand or by another program.
#![tactic(auto)]

#[cfg(test)]
mod any_actor_tests;
#[cfg(test)]
mod canonical_text_tests;
#[cfg(test)]
mod format_tests;
#[cfg(test)]
mod refusal_tests;
