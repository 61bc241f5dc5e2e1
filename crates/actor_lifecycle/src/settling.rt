ghost use Rattle.std.specs.Prelude.{◌≡◌, ◌+◌, ◌≤◌, map, None, IfOk, OnErr};
ghost use Rattle.std.specs.List.Sorted.{IsStrictlyIncreasing};
ghost use Rattle.sim_model.specs.Moment.{first_fault};
ghost use Rattle.actor_lifecycle.specs.Settling.{settled};

use actor_trait::Actor;
use sim_base::{Items, Memory, Moment};
use sim_model::{Fault, Report, Settled, bear_all, birth_letters, count_births, retired};
use std::alloc::Global;

/// What becomes of the reports of a moment, one of each actor that acted. The first newborn gets the
/// number `next_id`, and no actor one past `max_actors`: a creator whose newborn would have one shows
/// fault 902, unless it shows an earlier one. The answer is `Faulted` exactly where an actor shows a
/// fault, with the least actor that shows one. Else the states of the newborn are moved out of the
/// reports, and the rest of the reports is as it was. Err is want of memory, and doesn't come where an
/// actor shows a fault; the reports are gone then.
pub fn settle<A: Actor + Drop>(
    alloc: Global,
    reports: Items<Report<A>>,
    now: Moment,
    next_id: u32,
    max_actors: u32,
) -> Result<Settled<A>, Memory>
    requires ascending { IsStrictlyIncreasing (map (λ r. r.id.0) reports) }
    requires next { next_id ≤ max_actors + 1 }
    ensures settled { IfOk result (λ s. s ≡ settled A.meaning max_actors next_id now reports) }
    ensures calm { OnErr result (first_fault A.meaning max_actors next_id now reports ≡ None) }
{
    let count = match count_births(reports.as_slice(), max_actors, next_id, now) {
        Ok(count) => count,
        Err(Fault { actor, code }) => return Ok(Settled::Faulted { actor, code }),
    };
    let retired = retired(alloc, reports.as_slice())?;
    let (kept, born) = if count == 0 {
        (reports, Items::new(alloc))
    } else {
        bear_all(alloc, reports, next_id, count)?
    };
    let letters = birth_letters(alloc, born.as_slice())?;
    Ok(Settled::Settled {
        kept,
        born,
        letters,
        retired,
    })
}
