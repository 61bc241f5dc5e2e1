ghost use Rattle.std.specs.Prelude.{◌≡◌};
ghost use Rattle.sim_base.specs.Endings.{exit_code, status_of_ending};

use crate::Ending;

/// What a call of the top answers; the program's exit code.
#[derive(Clone, Copy, Debug, PartialEq, Eq)]
pub enum Status {
    /// 0: done.
    Done,
    /// 1: reading the input failed.
    InputFault,
    /// 2: writing the output failed.
    OutputFault,
    /// 3: the command words are refused.
    WordsRefused,
    /// 4: the scenario is refused.
    ScenarioRefused,
    /// 5: the run ended by a fault of an actor.
    ActorFault,
    /// 6: the run ended at the diasca limit.
    DiascaLimit,
    /// 7: want of memory.
    NoMemory,
}

impl Status {
    /// The status of a run that ended so.
    pub fn of_ending(ending: Ending) -> Status
        ensures { result ≡ status_of_ending ending }
    {
        match ending {
            Ending::Exhausted => Status::Done,
            Ending::TickLimit => Status::Done,
            Ending::DiascaLimit => Status::DiascaLimit,
            Ending::Fault { actor: _, code: _ } => Status::ActorFault,
        }
    }

    /// The program's exit code, 0 to 7.
    pub fn code(self) -> u8
        ensures { result ≡ exit_code self }
    {
        match self {
            Status::Done => 0,
            Status::InputFault => 1,
            Status::OutputFault => 2,
            Status::WordsRefused => 3,
            Status::ScenarioRefused => 4,
            Status::ActorFault => 5,
            Status::DiascaLimit => 6,
            Status::NoMemory => 7,
        }
    }
}
