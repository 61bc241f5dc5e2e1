//! Cases through the whole program, from its words and the bytes of a scenario to the bytes of its text
//! and its line, and what crosses two layers below. The expected values were worked out by hand or by
//! another program.
#![tactic(auto)]

#[cfg(test)]
mod calls;
#[cfg(test)]
mod depot_tests;
#[cfg(test)]
mod gate_tests;
#[cfg(test)]
mod generated_tests;
#[cfg(test)]
mod rows;
#[cfg(test)]
mod run_tests;
#[cfg(test)]
mod simulate_tests;
