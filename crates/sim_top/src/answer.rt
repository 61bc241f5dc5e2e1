ghost use Rattle.std.specs.Prelude.{◌≡◌, IfOk};
ghost use Rattle.sim_top.specs.Statuses.{IsEnding};
ghost use Rattle.sim_top.specs.Tasks.{Gives, answer, reads};
ghost use Rattle.sim_top.specs.Words.{IsOffered};

use crate::commands::{check, generated, help, plan, run, upgrade, version};
use crate::reading::{InputRefusal, Reading};
use crate::words::{Command, Order};
use quiescence::Rounds;
use sim_base::{Gate, Items, Memory, Status};
use std::alloc::Global;
use std::thread::Threads;

/// What an order is answered with.
#[derive(Drop)]
pub struct Answer {
    /// All that is written.
    pub text: Items<u8>,
    /// Done, or what the ending of a run gives.
    pub status: Status,
    /// The sums over the rounds that were closed.
    pub rounds: Rounds,
}

/// Why an order has no answer.
#[derive(Drop)]
pub(crate) enum AnswerFault {
    /// What was read is refused.
    Refused(InputRefusal),
    /// A growth was refused; nothing is known of what was read.
    Memory,
}

impl From<Memory> for AnswerFault {
    ghost use Rattle.std.specs.Prelude.{◌≡◌};
    ghost use Rattle.sim_top.specs.declared.answer.AnswerFault.TheVariants as fault;

    ghost from_gives = { λ _ e. e ≡ fault.Memory };

    fn from(_: Memory) -> AnswerFault {
        AnswerFault::Memory
    }
}

/// What an order reads; None is nothing.
pub(crate) fn reads(order: &Order) -> Option<Reading>
    ensures { result ≡ reads order.now }
{
    match order.command {
        Command::Run | Command::Live => Some(Reading::Scenario),
        Command::Check | Command::Plan | Command::Upgrade => Some(Reading::Scenario),
        Command::Gen(_) | Command::Help | Command::Version => None,
    }
}

/// The answer of an order to what it read. Workers pass the gate before each claim.
pub(crate) fn answer_of<R: Threads + Sync, G: Gate + Sync>(
    rt: &R,
    alloc: Global,
    order: &Order,
    bytes: Items<u8>,
    gate: &G,
) -> Result<Answer, AnswerFault>
    requires { IsOffered order.now.command }
    ensures value { Gives result (answer order.now bytes) }
    ensures ending { IfOk result (λ a. IsEnding a.status) }
{
    match order.command {
        Command::Run | Command::Live => run::reply(rt, alloc, bytes, order.plan, gate),
        Command::Check => check::reply(alloc, bytes),
        Command::Plan => plan::reply(alloc, bytes, &order.plan),
        Command::Gen(groups) => Ok(generated::reply(rt, alloc, groups, order.plan, gate)?),
        Command::Upgrade => upgrade::reply(alloc, bytes),
        Command::Help => Ok(help::reply(alloc)?),
        Command::Version => Ok(version::reply(alloc)?),
    }
}
