ghost use Rattle.std.specs.Prelude.{◌≡◌};
ghost use Rattle.scenario.specs.Format.{scenario_of};
ghost use Rattle.sim_top.specs.Tasks.{Gives, limit, scenario_read};

use crate::answer::AnswerFault;
use scenario::{Refusal, Scenario, ScenarioFault};
use sim_base::Items;
use std::alloc::Global;

/// What an order reads from the input.
#[derive(Clone, Copy, Debug, PartialEq, Eq)]
pub enum Reading {
    /// A scenario, of at most 16,777,216 bytes.
    Scenario,
}

impl Reading {
    /// The most bytes that are read.
    pub(crate) fn limit(self) -> usize
        ensures { result ≡ limit self }
    {
        match self {
            Reading::Scenario => 16_777_216,
        }
    }
}

/// Why the bytes that were read are refused.
#[derive(Drop, PartialEq, Eq)]
pub enum InputRefusal {
    /// They are no scenario.
    Scenario(Refusal),
}

/// The scenario of these bytes, which are then given up.
pub(crate) fn read_scenario(alloc: Global, bytes: Items<u8>) -> Result<Scenario, AnswerFault>
    ensures { Gives result (scenario_read (scenario_of bytes)) }
{
    match Scenario::read(alloc, bytes.as_slice()) {
        Ok(scenario) => Ok(scenario),
        Err(ScenarioFault::Refused(refusal)) => {
            Err(AnswerFault::Refused(InputRefusal::Scenario(refusal)))
        }
        Err(ScenarioFault::Memory) => Err(AnswerFault::Memory),
    }
}
