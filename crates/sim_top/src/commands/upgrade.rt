ghost use Rattle.std.specs.Prelude.{◌≡◌, IfOk};
ghost use Rattle.sim_top.specs.Commands.Upgrade.{upgrade_answer};
ghost use Rattle.sim_top.specs.Statuses.{IsEnding};
ghost use Rattle.sim_top.specs.Tasks.{Gives, answer_by, reads_scenario};

use crate::answer::{Answer, AnswerFault};
use crate::reading::read_scenario;
use quiescence::Rounds;
use sim_base::{Items, Status};
use std::alloc::Global;

/// The canonical text of the scenario that was read, in the newest format, and a line end.
#[tactic(auto, unfolding(crate::specs::Commands::Upgrade::upgrade_answer))]
pub(crate) fn reply(alloc: Global, bytes: Items<u8>) -> Result<Answer, AnswerFault>
    ensures value { Gives result (answer_by (reads_scenario upgrade_answer) bytes) }
    ensures ending { IfOk result (λ a. IsEnding a.status) }
{
    let scenario = read_scenario(alloc, bytes)?.upgrade();
    let mut text = scenario.print(alloc)?;
    text.add(b'\n')?;
    Ok(Answer {
        text,
        status: Status::Done,
        rounds: Rounds::new(),
    })
}
