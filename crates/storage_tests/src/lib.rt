//! Cases of the public calls of the storage: agendas, the store of letters, and buffers of rows.
//! Expected values were worked out by hand.
#![tactic(auto)]

#[cfg(test)]
mod agendas;
#[cfg(test)]
mod letters;
#[cfg(test)]
mod rows;
