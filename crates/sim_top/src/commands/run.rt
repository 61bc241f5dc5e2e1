ghost use Rattle.std.specs.Prelude.{◌≡◌, IfOk};
ghost use Rattle.sim_top.specs.Commands.Run.{run_answer};
ghost use Rattle.sim_top.specs.Statuses.{IsEnding};
ghost use Rattle.sim_top.specs.Tasks.{Gives, answer_by, reads_scenario};

use crate::answer::{Answer, AnswerFault};
use crate::reading::read_scenario;
use agenda_wheel::WheelAgenda;
use placement::Plan;
use result_store::text;
use scenario::Scenario;
use selection::Selection;
use sim_base::{Gate, Items, Status};
use std::alloc::Global;
use std::thread::Threads;
use tick_advance::run_kept;

/// The text of the run of the scenario that was read, the status of its ending, and its rounds.
#[tactic(auto, unfolding(crate::specs::Commands::Run::run_answer))]
pub(crate) fn reply<R: Threads + Sync, G: Gate + Sync>(
    rt: &R,
    alloc: Global,
    bytes: Items<u8>,
    plan: Plan,
    gate: &G,
) -> Result<Answer, AnswerFault>
    ensures value { Gives result (answer_by (reads_scenario run_answer) bytes) }
    ensures ending { IfOk result (λ a. IsEnding a.status) }
{
    let Scenario { setup, rules, .. } = read_scenario(alloc, bytes)?;
    let sieve = Selection::of(alloc, &rules, &setup)?;
    let run = run_kept::<_, _, WheelAgenda, _, _>(rt, alloc, setup, plan, sieve, gate)?;
    let (results, rounds) = run;
    Ok(Answer {
        text: text(alloc, &results, &rules)?,
        status: Status::of_ending(results.ending),
        rounds,
    })
}
