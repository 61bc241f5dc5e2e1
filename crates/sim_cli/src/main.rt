//! The program `sim_cli WORDS..`: it reads from standard input what the command reads, writes the answer
//! to standard output, and ends with the status as its exit code.
#![tactic(auto)]

mod words;

use sim_base::{OpenGate, Status, StdErr, StdIn, StdOut};
use sim_top::simulate;
use std::process::ExitCode;
use words::command_words;

fn main(rt: HostRuntime) -> ExitCode {
    let Ok(words) = command_words(&rt, rt.alloc()) else {
        return ExitCode::from(Status::NoMemory.code());
    };
    let ran = simulate(
        &rt,
        rt.alloc(),
        words.as_slice(),
        &mut StdIn::new(rt.stdin()),
        &mut StdOut::new(rt.stdout()),
        &mut StdErr::new(rt.stderr()),
        &OpenGate,
    );
    ExitCode::from(ran.status.code())
}
