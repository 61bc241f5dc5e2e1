//! Cases of the edge through its public calls: rules, the text of a run, command words, and commands. What is
//! expected was worked out by hand or by another program.
#![tactic(auto)]

#[cfg(test)]
mod command_tests;
#[cfg(test)]
mod rule_tests;
#[cfg(test)]
mod run_text_tests;
#[cfg(test)]
mod words_tests;
