//! What a run costs: `run_cost FORM WORKERS MANAGERS` reads a scenario from standard input, runs it, and
//! prints the moment entered last, how many samples there are, and how many letters found nobody. The form
//! is `engine`, or `plain` for the one-thread run, which knows neither workers nor managers.
#![tactic(auto)]

ghost use Rattle.std.specs.Prelude.{◌≤◌};

use agenda_wheel::WheelAgenda;
use placement::{Plan, Policy};
use scenario::{AnyActor, Scenario};
use sim_base::{Memory, OpenGate, StdIn, read_all};
use sim_model::{Results, Setup, plain_run};
use std::alloc::Global;
use std::thread::Threads;
use std::{env, io};
use tick_advance::run;

/// The most bytes that a scenario has.
const MOST: usize = 16_777_216;

/// The number that a word shows, or 1, brought into a range.
fn number(word: Option<String>, most: u32) -> u32
    requires { 1 ≤ most }
    ensures { (1 ≤ result) × (result ≤ most) }
{
    let number = match word {
        Some(text) => text.as_str().parse().unwrap_or(1),
        None => 1,
    };
    number.clamp(1, most)
}

/// The scenario on standard input; None where there is none, or where memory is wanted.
fn read(alloc: Global, mut input: StdIn) -> Option<Scenario> {
    let bytes = read_all(alloc, &mut input, MOST).ok()?;
    Scenario::read(alloc, bytes.as_slice()).ok()
}

/// The run by workers, with round robin.
fn run_by<R: Threads + Sync>(
    rt: &R,
    alloc: Global,
    setup: Setup<AnyActor>,
    workers: u32,
    managers: u32,
) -> Result<Results, Memory>
    requires workers { (1 ≤ workers) × (workers ≤ 64) }
    requires managers { (1 ≤ managers) × (managers ≤ 16) }
{
    let plan = Plan {
        workers,
        managers,
        fanout: 2,
        policy: Policy::RoundRobin,
    };
    let (results, _rounds) = run::<_, AnyActor, WheelAgenda, _>(rt, alloc, setup, plan, &OpenGate)?;
    Ok(results)
}

fn main(rt: HostRuntime) -> io::Result<()> {
    let mut words = env::args(&rt)?;
    words.next();
    let plain = words.next().is_some_and(|form| form.as_str() == "plain");
    let workers = number(words.next(), 64);
    let managers = number(words.next(), 16);
    let Some(scenario) = read(rt.alloc(), StdIn::new(rt.stdin())) else {
        return println!(rt; "no scenario");
    };
    let results = if plain {
        plain_run(rt.alloc(), &scenario.setup)
    } else {
        run_by(&rt, rt.alloc(), scenario.setup, workers, managers)
    };
    match results {
        Ok(results) => println!(rt;
            "{},{},{},{}",
            results.last.tick,
            results.last.diasca,
            results.rows.len(),
            results.dead_letters
        ),
        Err(_) => println!(rt; "no memory"),
    }
}
