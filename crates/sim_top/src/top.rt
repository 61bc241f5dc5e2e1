ghost use Rattle.std.specs.Prelude.{◌≡◌, ◌≢◌, List, ℕ, None, Ok, Some, false};
ghost use Rattle.sim_top.specs.Clauses.{ClosesRounds, FailsExactly, Fits, GivesAnswer, GivesFront, InputRefusedExactly, LeavesInput, TakesNoMore, TriesErrorLine, WordsRefusedFirst};
ghost use Rattle.sim_top.specs.Lines.{Told, Tries, line_for, ran_for};
ghost use Rattle.sim_top.specs.Statuses.{IsEnding, IsEndingOrMemory, WritesNothing};
ghost use Rattle.sim_top.specs.Tasks.{answer, reads};
ghost use Rattle.sim_top.specs.Verdicts.{Answers, Comes, Judged, ends};
ghost use Rattle.sim_top.specs.Words.{IsOffered, order_of};
ghost use Rattle.sim_top.specs.declared.answer.Answer.{Answer};
ghost use Rattle.sim_top.specs.declared.reading.Reading.{Reading};
ghost use Rattle.sim_top.specs.declared.verdict.Verdict.{Verdict};
ghost use Rattle.sim_top.specs.declared.words.Order.{Order};

use crate::Verdict;
use crate::answer::{Answer, AnswerFault, answer_of, reads};
use crate::words::{Order, read_words};
use quiescence::Rounds;
use sim_base::{Gate, Items, ReadFault, Sink, Source, Status, read_all, write_all_of};
use std::alloc::Global;
use std::thread::Threads;

/// What a call of the top answers.
#[derive(Drop)]
pub struct Ran {
    /// What the call came to; the program's exit code.
    pub status: Status,
    /// The sums over the rounds that were closed.
    pub rounds: Rounds,
}

/// Writes the answer of an order that was given these bytes.
fn write_answer<R: Threads + Sync, O: Sink, G: Gate + Sync>(
    rt: &R,
    alloc: Global,
    order: &Order,
    bytes: Items<u8>,
    out: &mut O,
    gate: &G,
) -> Verdict
    requires { IsOffered order.now.command }
    ensures { Answers order.now bytes O.written O.faults out.old out.new result }
{
    let Answer {
        text,
        status,
        rounds,
    } = match answer_of(rt, alloc, order, bytes, gate) {
        Ok(answer) => answer,
        Err(AnswerFault::Refused(refusal)) => return Verdict::Refused(refusal),
        Err(AnswerFault::Memory) => return Verdict::NoMemory,
    };
    match write_all_of(out, text.as_slice()) {
        Ok(()) => Verdict::Ended(status, rounds),
        Err(_) => Verdict::OutputFault(rounds),
    }
}

/// Reads what an order reads, and writes its answer.
fn perform<R: Threads + Sync, S: Source, O: Sink, G: Gate + Sync>(
    rt: &R,
    alloc: Global,
    order: &Order,
    input: &mut S,
    out: &mut O,
    gate: &G,
) -> Verdict
    requires { IsOffered order.now.command }
    ensures { Comes order.now (ends S.left S.faults O.written O.faults input.old input.new out.old out.new) result }
{
    let Some(reading) = reads(order) else {
        return write_answer(rt, alloc, order, Items::new(alloc), out, gate);
    };
    match read_all(alloc, input, reading.limit()) {
        Ok(bytes) => write_answer(rt, alloc, order, bytes, out, gate),
        Err(ReadFault::Fault) => Verdict::InputFault,
        Err(ReadFault::TooLong) => Verdict::TooLong(reading),
        Err(ReadFault::Memory) => Verdict::NoMemory,
    }
}

/// Reads the words, and does what they ask for.
fn judge<R: Threads + Sync, S: Source, O: Sink, G: Gate + Sync>(
    rt: &R,
    alloc: Global,
    words: &[Items<u8>],
    input: &mut S,
    out: &mut O,
    gate: &G,
) -> Verdict
    ensures { Judged (order_of false words.now) (ends S.left S.faults O.written O.faults input.old input.new out.old out.new) result }
{
    match read_words(words, false) {
        Ok(order) => perform(rt, alloc, &order, input, out, gate),
        Err(refusal) => Verdict::Words(refusal),
    }
}

/// Does what the command words say, from the bytes of the input to the bytes of the output, and answers
/// how it went. Each command is told in `Command`; `live` isn't one of this call's.
///
/// The status says what the call came to, and with each but those of an ending one line is tried on
/// `err`. The order is fixed: the words, the reading, the answer, the writing; so nothing is written
/// before the whole answer is there. Want of memory may come at any point between the words and the
/// writing.
///
/// `run` and `gen` are done by at most as many workers as the plan says, which return before the run
/// ends; each passes the gate before each of its claims.
pub fn simulate<R: Threads + Sync, S: Source, O: Sink, E: Sink, G: Gate + Sync>(
    rt: &R,
    alloc: Global,
    words: &[Items<u8>],
    input: &mut S,
    out: &mut O,
    err: &mut E,
    gate: &G,
) -> Ran
    // All in one: the call came to a verdict, which gives its answer and its line.
    ensures judged { (v : Verdict) × (result ≡ ran_for v)
        × Judged (order_of false words.now) (ends S.left S.faults O.written O.faults input.old input.new out.old out.new) v
        × Told E.written E.faults err.old err.new (line_for v) }

    // The words are refused exactly with status 3, and then the input and the output are as they were.
    ensures words_refused_first { WordsRefusedFirst (order_of false words.now)
        (ends S.left S.faults O.written O.faults input.old input.new out.old out.new) result.status }

    // Status 1 comes exactly where the input failed in this call, and status 2 exactly where the output did.
    ensures input_fault_by_its_cause { FailsExactly Status.InputFault result.status (S.faults input.old) (S.faults input.new) }
    ensures output_fault_by_its_cause { FailsExactly Status.OutputFault result.status (O.faults out.old) (O.faults out.new) }

    // Status 4 comes exactly where the input is too long or what was read is refused.
    ensures scenario_refused_exactly { (o : Order) (reading : Reading) (bytes : List ℕ)
        → order_of false words.now ≡ Ok o → reads o ≡ Some reading → S.left input.old ≡ Some bytes
        → result.status ≢ Status.InputFault → result.status ≢ Status.NoMemory
        → InputRefusedExactly o reading bytes (S.left input.new) result.status }

    // A command that reads nothing leaves the input as it was, and statuses 1 and 4 don't come from it.
    ensures input_untouched { (o : Order) → order_of false words.now ≡ Ok o → reads o ≡ None
        → LeavesInput (ends S.left S.faults O.written O.faults input.old input.new out.old out.new) result.status }

    // Where the input fails at most the limit is taken, and where memory is wanted at most one byte more.
    ensures taken_within { (o : Order) (reading : Reading) → order_of false words.now ≡ Ok o → reads o ≡ Some reading
        → TakesNoMore reading (S.left input.old) (S.left input.new) result.status }

    // An ending comes with the whole answer to the whole input, status 2 with a front of it.
    ensures the_answer { (bytes : List ℕ) → IsEnding result.status → S.left input.old ≡ Some bytes
        → GivesAnswer (order_of false words.now) bytes (S.left input.new) (O.written out.old) (O.written out.new) result }
    ensures front_of_the_answer { (bytes : List ℕ) → result.status ≡ Status.OutputFault → S.left input.old ≡ Some bytes
        → GivesFront (order_of false words.now) bytes (S.left input.new) (O.written out.old) (O.written out.new) result }

    // With statuses 1, 3, 4 and 7 the output is as it was.
    ensures nothing_written { WritesNothing result.status → out.new ≡ out.old }

    // With each status but an ending's its line is tried on `err`; an ending leaves `err` as it was.
    ensures error_line { TriesErrorLine (order_of false words.now) (S.left input.old) result.status
        (Tries (E.written err.old) (E.written err.new) (E.faults err.old) (E.faults err.new)) }
    ensures error_sink_untouched { IsEnding result.status → err.new ≡ err.old }

    // Where the words and the input are accepted, an ending is kept away by a failing end or want of memory alone.
    ensures completeness { (o : Order) (bytes : List ℕ) (a : Answer) → order_of false words.now ≡ Ok o
        → S.left input.old ≡ Some bytes → Fits (reads o) bytes → answer o bytes ≡ Ok a
        → result.status ≢ Status.InputFault → result.status ≢ Status.OutputFault → IsEndingOrMemory result.status }

    // `run` and `gen` close a round for each moment of the run at which somebody is scheduled; else none is.
    ensures closed_rounds { ClosesRounds (order_of false words.now) (S.left input.old) result }
{
    let verdict = judge(rt, alloc, words, input, out, gate);
    verdict.tell(err);
    verdict.ran()
}
