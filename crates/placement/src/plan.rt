ghost use Rattle.std.specs.Prelude.{◌≡◌};
ghost use Rattle.placement.specs.declared.policy.Policy.TheVariants as policy;

use crate::Policy;
use std::marker::Model;

/// How a run is spread over threads and managers. Its numbers are always in their ranges.
#[derive(Clone, Copy, Debug, PartialEq, Eq)]
pub struct Plan {
    /// How many threads work: 1 to 64.
    pub workers: u32,
    /// How many managers the actors are spread over: 1 to 16.
    pub managers: u32,
    /// How many children a node of the tree of managers has at most: 2 to 8.
    pub fanout: u32,
    /// How a new actor finds its manager.
    pub policy: Policy,
}

impl Model for Plan {
    ghost use Rattle.placement.specs.Plans.{PlanParts, IsPlan};

    ghost Value = { PlanParts };

    ghost view = { λ p. record { workers = p.workers; managers = p.managers; fanout = p.fanout; policy = p.policy } };

    ghost invariant = { λ p. IsPlan (record { workers = p.workers; managers = p.managers; fanout = p.fanout; policy = p.policy }) };

    ghost inverse = { λ p. record { workers = p.workers; managers = p.managers; fanout = p.fanout; policy = p.policy } };
}

impl Plan {
    /// The plan of a run without options: one worker, one manager, a fan-out of 2, round robin.
    pub fn single() -> Plan
        ensures { result ≡ record { workers = 1; managers = 1; fanout = 2; policy = policy.RoundRobin } }
    {
        Plan {
            workers: 1,
            managers: 1,
            fanout: 2,
            policy: Policy::RoundRobin,
        }
    }
}
