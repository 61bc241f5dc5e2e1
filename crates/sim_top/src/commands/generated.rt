ghost use Rattle.std.specs.Prelude.{◌≡◌, ◌≤◌, ◌++◌, ◌==◌, IfOk, OnOk};
ghost use Rattle.std.specs.List.{count_by};
ghost use Rattle.hex.specs.Hex.{encode_lower};
ghost use Rattle.sha2.specs.Sha256.{sha256};
ghost use Rattle.result_store.specs.Text.{end_line};
ghost use Rattle.sim_top.specs.Commands.Gen.{gen_answer, sample_lines, summary};
ghost use Rattle.sim_top.specs.Statuses.{IsEnding};

use crate::answer::Answer;
use crate::text::{add, add_number};
use agenda_wheel::WheelAgenda;
use placement::Plan;
use result_store::{add_end_line, text};
use scenario::Scenario;
use selection::Selection;
use sha2::{Digest, Sha256};
use sim_base::{Gate, Items, Memory, Status};
use sim_model::Results;
use std::alloc::Global;
use std::thread::Threads;
use tick_advance::run_kept;

/// How many lines a text has.
fn line_count(text: &[u8]) -> usize
    ensures { result ≡ count_by (λ byte. byte == 10) text.now }
{
    let mut lines = 0;
    for byte in text {
        if *byte == b'\n' {
            lines += 1;
        }
    }
    lines
}

/// How many lines of a run's text are samples: all but the first and the last.
fn sample_lines(text: &[u8]) -> u64
    ensures { result ≡ sample_lines text.now }
{
    line_count(text).saturating_sub(2) as u64
}

/// Adds the digest of a text, in hexadecimal digits.
fn add_digest(summary: &mut Vec<u8>, text: &[u8]) -> Result<(), Memory>
    ensures { OnOk result (summary.new.items ≡ summary.old.items ++ encode_lower (sha256 text.now)) }
{
    let mut digits = [0; 64];
    match hex::encode_to_slice(Sha256::digest(text), &mut digits) {
        Ok(()) => add(summary, &digits),
        Err(_) => unreachable!(),
    }
}

/// The summary of a run that began with so many actors, with its text.
fn summary_of(
    alloc: Global,
    actors: usize,
    text: &[u8],
    results: &Results,
) -> Result<Vec<u8>, Memory>
    ensures { IfOk result (λ lines. lines.items ≡ summary actors text.now results.now) }
{
    let mut lines = Vec::new(alloc);
    add(&mut lines, b"actors,")?;
    add_number(&mut lines, actors as u64)?;
    add(&mut lines, b"\nsamples,")?;
    add_number(&mut lines, sample_lines(text))?;
    add(&mut lines, b"\nsha256,")?;
    add_digest(&mut lines, text)?;
    add(&mut lines, b"\n")?;
    add_end_line(&mut lines, results)?;
    Ok(lines)
}

/// The summary of the run of a generated scenario of so many groups, the status of its ending, and its
/// rounds.
#[tactic(auto, unfolding(crate::specs::Commands::Gen::gen_answer))]
pub(crate) fn reply<R: Threads + Sync, G: Gate + Sync>(
    rt: &R,
    alloc: Global,
    groups: u32,
    plan: Plan,
    gate: &G,
) -> Result<Answer, Memory>
    requires some { 1 ≤ groups }
    requires most { groups ≤ 10000 }
    ensures value { IfOk result (λ a. a ≡ gen_answer groups) }
    ensures ending { IfOk result (λ a. IsEnding a.status) }
{
    let Scenario { setup, rules, .. } = Scenario::generate(alloc, groups)?;
    let actors = setup.actors.len();
    let sieve = Selection::of(alloc, &rules, &setup)?;
    let run = run_kept::<_, _, WheelAgenda, _, _>(rt, alloc, setup, plan, sieve, gate)?;
    let (results, rounds) = run;
    let text = text(alloc, &results, &rules)?;
    let lines = summary_of(alloc, actors, text.as_slice(), &results)?;
    Ok(Answer {
        text: Items::of(lines),
        status: Status::of_ending(results.ending),
        rounds,
    })
}
