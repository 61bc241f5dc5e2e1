//! The program `event_cost WHAT COUNT` does so many events of a clock, a ball or a customer, or makes
//! so many keys, and prints a number that each of them changed. `bench/events` times it.
#![tactic(auto)]

mod events;

use events::{Work, done};
use std::env;
use std::env::Env;
use std::process::ExitCode;

/// What the two words ask for.
fn asked(rt: &(impl Env + AllocGlobal)) -> Option<(Work, u64)> {
    let mut words = env::args(rt).ok()?.skip(1);
    let work = Work::read(words.next()?.as_str())?;
    let count = words.next()?.parse().ok()?;
    Some((work, count))
}

fn main(rt: HostRuntime) -> ExitCode {
    let Some((work, count)) = asked(&rt) else {
        return ExitCode::from(2);
    };
    match done(rt.alloc(), work, count) {
        Ok(number) if println!(rt; "{number}").is_ok() => ExitCode::SUCCESS,
        _ => ExitCode::FAILURE,
    }
}
