//! The lines on the error sink. They are written piece by piece and take no memory.
ghost use Rattle.std.specs.Prelude.{◌≡◌};
ghost use Rattle.scenario.specs.Pieces.{Writes};
ghost use Rattle.sim_top.specs.Lines.{cause_text, refusal_line, too_long_line, words_line};

use crate::reading::{InputRefusal, Reading};
use crate::words::{WordsCause, WordsRefusal};
use scenario::{Broken, write_numbered, write_piece, write_scenario_line};
use sim_base::Sink;

/// The line of a refusal of what was read.
pub(crate) fn write_refusal_line<E: Sink>(err: &mut E, refusal: &InputRefusal) -> Result<(), Broken>
    ensures { Writes E.written E.faults err.old err.new result (refusal_line refusal.now) }
{
    match refusal {
        InputRefusal::Scenario(refusal) => write_scenario_line(err, refusal),
    }
}

/// The line of an input with more bytes than may be read.
pub(crate) fn write_too_long_line<E: Sink>(err: &mut E, reading: Reading) -> Result<(), Broken>
    ensures { Writes E.written E.faults err.old err.new result (too_long_line reading) }
{
    match reading {
        Reading::Scenario => write_piece(err, b"scenario: too long\n"),
    }
}

fn cause_text(cause: WordsCause) -> &'static [u8]
    ensures { result.now ≡ cause_text cause }
{
    match cause {
        WordsCause::NoCommand => b"no command",
        WordsCause::UnknownCommand => b"unknown command",
        WordsCause::UnknownOption => b"unknown option",
        WordsCause::Repeated => b"option twice",
        WordsCause::NoValue => b"value missing",
        WordsCause::BadNumber => b"not a number",
        WordsCause::OutOfRange => b"out of range",
        WordsCause::UnknownPolicy => b"unknown policy",
    }
}

/// The line of refused words.
pub(crate) fn write_words_line<E: Sink>(err: &mut E, refusal: WordsRefusal) -> Result<(), Broken>
    ensures { Writes E.written E.faults err.old err.new result (words_line refusal) }
{
    write_numbered(err, b"words: ", refusal.place)?;
    write_piece(err, b": ")?;
    write_piece(err, cause_text(refusal.cause))?;
    write_piece(err, b"\n")
}
