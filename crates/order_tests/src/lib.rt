//! Cases of inboxes and of the keys that order them. Expected values are by Python's hashlib.
#![tactic(auto)]

#[cfg(test)]
mod inbox_tests;
#[cfg(test)]
mod key_tests;
