//! The call that does all: from the words and the bytes of a scenario to the bytes of the answer, an
//! error line and a status. A command is a row of the table of words, a row of the table of tasks, and a
//! module of `commands` with its definition.
#![tactic(auto)]

mod answer;
mod commands;
mod forms;
mod lines;
mod options;
mod reading;
mod text;
mod threads;
mod top;
mod verdict;
mod words;

pub use answer::Answer;
pub use reading::{InputRefusal, Reading};
pub use top::{Ran, simulate};
pub use verdict::Verdict;
pub use words::{Command, Order, WordsCause, WordsRefusal, read_words};
