ghost use Rattle.std.specs.Prelude.{◌≡◌};
ghost use Rattle.quiescence.specs.Rounds.{no_rounds};
ghost use Rattle.sim_top.specs.Lines.{Told, line_for, ran, ran_for};

use crate::lines::{write_refusal_line, write_too_long_line, write_words_line};
use crate::reading::{InputRefusal, Reading};
use crate::top::Ran;
use crate::words::WordsRefusal;
use quiescence::Rounds;
use scenario::write_piece;
use sim_base::{Sink, Status};

/// What a call came to.
#[derive(Drop)]
pub enum Verdict {
    /// The command ended with this status and these rounds, and its whole answer is written.
    Ended(Status, Rounds),
    /// The words are refused.
    Words(WordsRefusal),
    /// What was read is refused.
    Refused(InputRefusal),
    /// The input has more bytes than may be read.
    TooLong(Reading),
    /// The input failed.
    InputFault,
    /// The output failed; a front of what was to be written is, and these rounds were closed.
    OutputFault(Rounds),
    /// Want of memory.
    NoMemory,
}

/// What a call answers that closed no round.
fn unrun(status: Status) -> Ran
    ensures { result ≡ ran status no_rounds }
{
    Ran {
        status,
        rounds: Rounds::new(),
    }
}

impl Verdict {
    /// What the call answers.
    pub(crate) fn ran(self) -> Ran
        ensures { result ≡ ran_for self }
    {
        match self {
            Verdict::Ended(status, rounds) => Ran { status, rounds },
            Verdict::OutputFault(rounds) => Ran {
                status: Status::OutputFault,
                rounds,
            },
            Verdict::Words(_) => unrun(Status::WordsRefused),
            Verdict::Refused(_) | Verdict::TooLong(_) => unrun(Status::ScenarioRefused),
            Verdict::InputFault => unrun(Status::InputFault),
            Verdict::NoMemory => unrun(Status::NoMemory),
        }
    }

    /// Tries the line of a verdict; a command that ended has none. A failing sink changes nothing.
    pub(crate) fn tell<E: Sink>(&self, err: &mut E)
        ensures { Told E.written E.faults err.old err.new (line_for self.now) }
    {
        let _ = match self {
            Verdict::Ended(_, _) => Ok(()),
            Verdict::Words(refusal) => write_words_line(err, *refusal),
            Verdict::Refused(refusal) => write_refusal_line(err, refusal),
            Verdict::TooLong(reading) => write_too_long_line(err, *reading),
            Verdict::InputFault => write_piece(err, b"input fault\n"),
            Verdict::OutputFault(_) => write_piece(err, b"output fault\n"),
            Verdict::NoMemory => write_piece(err, b"no memory\n"),
        };
    }
}
