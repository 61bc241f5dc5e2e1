ghost use Rattle.std.specs.Prelude.{◌≡◌, IfOk};
ghost use Rattle.sim_top.specs.Commands.Version.{version_answer};
ghost use Rattle.sim_top.specs.Statuses.{IsEnding};

use crate::answer::Answer;
use quiescence::Rounds;
use sim_base::{Items, Memory, Status};
use std::alloc::Global;

/// One line with the name and the version.
#[tactic(auto, unfolding(crate::specs::Commands::Version::version_answer))]
pub(crate) fn reply(alloc: Global) -> Result<Answer, Memory>
    ensures value { IfOk result (λ a. a ≡ version_answer) }
    ensures ending { IfOk result (λ a. IsEnding a.status) }
{
    Ok(Answer {
        text: Items::of(b"buffersorrel 0.1.0\n".to_vec(alloc)?),
        status: Status::Done,
        rounds: Rounds::new(),
    })
}
