//! What a run is written as: the rules that select series, and the text of the selected samples.
#![tactic(auto)]

mod chains;
mod pattern;
mod rules;
mod run_text;
mod threads;

pub use rules::{Rules, RulesFault};
pub use run_text::{add_end_line, text};
