use sim_base::{Ending, Moment};

/// Where a simulation stands.
#[derive(Clone, Copy, Debug, PartialEq, Eq)]
pub enum Position {
    /// Between two moments, of which this one is entered next.
    Before(Moment),
    /// This moment is entered, and not yet closed.
    Within(Moment),
    /// The run is over.
    Ended(Ending),
    /// Memory was wanted: what the simulation stands for is lost, and each further call answers so.
    Lost,
}

/// What a moment led to.
#[derive(Clone, Copy, Debug, PartialEq, Eq)]
pub enum Step {
    /// The next moment is the next diasca of the same tick.
    NextDiasca,
    /// The next moment is the first diasca of a later tick.
    NextTick,
    /// The run is over.
    Ended(Ending),
}

/// What a tick led to.
#[derive(Clone, Copy, Debug, PartialEq, Eq)]
pub enum Progress {
    /// The next moment is the first diasca of a later tick.
    Going,
    /// The run is over.
    Ended(Ending),
}
