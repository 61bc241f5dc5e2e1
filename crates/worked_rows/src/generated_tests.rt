use crate::calls::{bytes_of, call, left};
use crate::rows::{ENDS, GENERATED, TWO_HUNDRED_GROUPS, WIDE_PLANS};
use sim_base::{OpenGate, Status};
use std::process::Abort;
use std::test::Fail;
use std::thread::Threads;

/// An input that stays as it is.
const UNREAD: &str = "not read";

/// The words come to this summary and close these rounds, and the input is left.
fn summary_is<R: Abort + AllocGlobal + Sync + Threads>(
    rt: &R,
    words: &[&str],
    summary: &str,
    rounds: [u64; 3],
) -> Result<(), Fail> {
    let mut came = call(rt, words, bytes_of(rt.alloc(), UNREAD)?, ENDS, &OpenGate)?;
    let is_so = came.is(Status::Done, summary, "") && came.rounds == rounds;
    let is_left = left(&mut came.input) == UNREAD.len();
    assert!(rt; is_so && is_left, "{words:?}");
    Ok(())
}

#[test]
fn generated_runs_have_their_summaries(rt: HostRuntime) -> Result<(), Fail> {
    for &(words, summary, rounds) in &GENERATED {
        summary_is(&rt, words, summary, rounds)?;
    }
    Ok(())
}

#[test]
fn a_large_run_is_the_same_under_each_plan(rt: HostRuntime) -> Result<(), Fail> {
    let (summary, rounds) = TWO_HUNDRED_GROUPS;
    for &(workers, managers, policy) in &WIDE_PLANS {
        let words = [
            "gen",
            "200",
            "--workers",
            workers,
            "--managers",
            managers,
            "--policy",
            policy,
        ];
        summary_is(&rt, &words, summary, rounds)?;
    }
    Ok(())
}
