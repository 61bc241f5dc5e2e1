use crate::calls::{bytes_of, call, comes_to, left};
use crate::rows::{
    CHECKED, ENDS, End, Ends, FAILING, ONE_CLOCK, REFUSED, REFUSED_WORDS, Run, STEADY,
};
use sim_base::{Items, OpenGate, Status};
use std::process::Abort;
use std::test::Fail;
use std::thread::Threads;

/// The scenario is refused with this line, and no round is closed.
fn is_refused<R: Abort + AllocGlobal + Sync + Threads>(
    rt: &R,
    words: &[&str],
    scenario: &str,
    line: &str,
) -> Result<(), Fail> {
    let came = call(rt, words, bytes_of(rt.alloc(), scenario)?, ENDS, &OpenGate)?;
    let is_so = came.is(Status::ScenarioRefused, "", line) && came.rounds == [0, 0, 0];
    assert!(rt; is_so, "{scenario}");
    Ok(())
}

#[test]
fn other_texts_are_refused(rt: HostRuntime) -> Result<(), Fail> {
    for &(scenario, line) in &REFUSED {
        is_refused(&rt, &["run", "--workers", "2"], scenario, line)?;
        is_refused(&rt, &["check"], scenario, line)?;
    }
    Ok(())
}

#[test]
fn check_writes_the_canonical_text(rt: HostRuntime) -> Result<(), Fail> {
    let (scenario, canonical) = CHECKED;
    let text = format!(in rt.alloc(); "{canonical}\n")?;
    let run = Run {
        scenario,
        status: Status::Done,
        text: text.as_str(),
        rounds: [0, 0, 0],
    };
    comes_to(&rt, &["check"], &run)?;
    let again = Run {
        scenario: canonical,
        ..run
    };
    comes_to(&rt, &["check"], &again)
}

/// The words are refused with this line, and the input is left.
fn are_refused<R: Abort + AllocGlobal + Sync + Threads>(
    rt: &R,
    words: &[&str],
    line: &str,
) -> Result<(), Fail> {
    let mut came = call(rt, words, bytes_of(rt.alloc(), ONE_CLOCK)?, ENDS, &OpenGate)?;
    let is_so = came.is(Status::WordsRefused, "", line) && left(&mut came.input) == ONE_CLOCK.len();
    assert!(rt; is_so, "{line}");
    Ok(())
}

#[test]
fn refused_words_leave_the_input(rt: HostRuntime) -> Result<(), Fail> {
    for &(words, line) in &REFUSED_WORDS {
        are_refused(&rt, words, line)?;
    }
    Ok(())
}

/// What was written before a failure is a front of what was to be, and a failing error sink changes no
/// status.
#[test]
fn failing_ends_are_told(rt: HostRuntime) -> Result<(), Fail> {
    for &(scenario, ends, status, output, line) in &FAILING {
        let input = bytes_of(rt.alloc(), scenario)?;
        let came = call(&rt, &["run"], input, ends, &OpenGate)?;
        assert!(rt; came.is(status, output, line), "{scenario} {line}");
    }
    Ok(())
}

/// Ends that pass much input a call.
const WIDE: Ends = Ends {
    input: End {
        cut: 65_536,
        ..STEADY
    },
    ..ENDS
};

/// So many blanks are refused with this line, and so many of them are left.
fn blanks_come_to<R: Abort + AllocGlobal + Sync + Threads>(
    rt: &R,
    count: usize,
    rest: usize,
    line: &str,
) -> Result<(), Fail> {
    let blanks = Items::of(vec![in rt.alloc(); b' '; count]?);
    let mut came = call(rt, &["run"], blanks, WIDE, &OpenGate)?;
    let is_so = came.is(Status::ScenarioRefused, "", line) && left(&mut came.input) == rest;
    assert!(rt; is_so, "{count} blanks");
    Ok(())
}

#[test]
fn the_longest_input_is_read_and_no_longer_one(rt: HostRuntime) -> Result<(), Fail> {
    blanks_come_to(&rt, 16_777_216, 0, "scenario: not JSON\n")?;
    blanks_come_to(&rt, 16_777_217, 0, "scenario: too long\n")?;
    blanks_come_to(&rt, 16_777_220, 3, "scenario: too long\n")
}
