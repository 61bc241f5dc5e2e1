ghost use Rattle.std.specs.Prelude.{◌≡◌, ◌≤◌, nat_le, length};
ghost use Rattle.std.specs.List.{list_any};
ghost use Rattle.actor_trait.specs.Faults.{asks_past, code_of, fault_among, fault_shown, gives_too_many, samples_unknown};

use crate::{Actor, Outcome, Sample};
use sim_base::Moment;
use std::marker::Model;

/// The code of a fault that a model shows by itself, 1 to 899.
#[derive(Clone, Copy, Debug, PartialEq, Eq)]
pub struct FaultCode(u32);

impl Model for FaultCode {
    ghost use Rattle.std.specs.Prelude.{◌≤◌, ℕ};

    ghost Value = { ℕ };

    ghost view = { λ f. f.0 };

    ghost invariant = { λ f. (1 ≤ f.0) × (f.0 ≤ 899) };

    ghost inverse = { λ n. record { 0 = n } };
}

impl FaultCode {
    /// None exactly where the code isn't 1 to 899.
    pub fn of(code: u32) -> Option<FaultCode>
        ensures { result ≡ code_of code }
    {
        if code >= 1 && code <= 899 {
            Some(FaultCode(code))
        } else {
            None
        }
    }

    /// The code, 1 to 899.
    pub fn code(&self) -> u32
        ensures code { result ≡ self.now }
        ensures least { 1 ≤ result }
        ensures most { result ≤ 899 }
    {
        self.0
    }
}

/// The most letters, ticks, births or samples of one event.
const MOST: usize = 1024;

/// A tick was asked that isn't after the present one.
const NOT_LATER: u32 = 900;

/// More than 1,024 letters, ticks, births or samples came of one event.
const TOO_MANY: u32 = 901;

/// A birth would have a number past the last that an actor may have.
const PAST_LAST_ACTOR: u32 = 902;

/// A probe was sampled that the kind doesn't declare.
const UNKNOWN_PROBE: u32 = 903;

fn any_past(ticks: &[u64], now: u64) -> bool
    ensures { result ≡ asks_past now ticks.now }
{
    ticks.iter().any(|tick| *tick <= now)
}

fn any_unknown(samples: &[Sample], probes: u32) -> bool
    ensures { result ≡ samples_unknown probes samples.now }
{
    samples.iter().any(|sample| probes <= sample.probe)
}

fn too_many<A>(outcome: &Outcome<A>) -> bool
    ensures { result ≡ gives_too_many outcome.now }
{
    MOST < outcome.sends.len()
        || MOST < outcome.ticks.len()
        || MOST < outcome.births.len()
        || MOST < outcome.samples.len()
}

/// The fault that an outcome shows at this moment, where `past` tells whether one of its births would
/// have a number past the last: the first of the model's own, 900, 901, 902 and 903.
pub fn fault_among<A: Actor>(outcome: &Outcome<A>, now: Moment, past: bool) -> Option<u32>
    ensures { result ≡ fault_among A.meaning outcome.now now past }
{
    if let Some(code) = &outcome.fault {
        return Some(code.code());
    }
    if any_past(outcome.ticks.as_slice(), now.tick) {
        Some(NOT_LATER)
    } else if too_many(outcome) {
        Some(TOO_MANY)
    } else if past {
        Some(PAST_LAST_ACTOR)
    } else if any_unknown(outcome.samples.as_slice(), outcome.state.probes()) {
        Some(UNKNOWN_PROBE)
    } else {
        None
    }
}

/// The fault that an outcome shows at this moment by itself: the first of the model's own, 900, 901 and
/// 903; None exactly where it shows none of them. Fault 902 can't be seen from one outcome alone.
pub fn fault_of<A: Actor>(outcome: &Outcome<A>, now: Moment) -> Option<u32>
    ensures { result ≡ fault_shown A.meaning outcome.now now }
{
    fault_among(outcome, now, false)
}
