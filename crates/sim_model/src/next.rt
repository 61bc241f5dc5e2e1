use sim_base::{Ending, Moment};

/// What comes after a moment that closed.
#[derive(Clone, Copy, Debug, PartialEq, Eq)]
pub enum Next {
    /// This moment is entered.
    Enters(Moment),
    /// The run ends.
    Ends(Ending),
}
