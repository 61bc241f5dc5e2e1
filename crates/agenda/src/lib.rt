//! Agendas: who asked for which tick. What an agenda means is one list of pairs, in specs/; the
//! trait says what each call does to that list, and `SortedAgenda` keeps it as it stands.
#![tactic(auto)]

mod agenda;
mod due;
mod sorted;
mod threads;

pub use agenda::Agenda;
pub use due::Due;
pub use sorted::SortedAgenda;
