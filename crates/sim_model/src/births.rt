ghost use Rattle.std.specs.Prelude.{◌≡◌, ◌++◌, ◌+◌, ◌≤◌, ◌^◌, length, map, None, Some, IfErr, IfOk, OnOk};
ghost use Rattle.sim_model.specs.Births.{birth_letter, births_from, births_of_moment, next_after, without_births};
ghost use Rattle.sim_model.specs.Moment.{first_fault, retired};

use crate::{Fault, Report};
use actor_trait::{Actor, Letter, Payload, fault_among};
use sim_base::{ActorId, Items, Memory, Moment, Name};
use std::alloc::{AllocError, Global};
use std::mem;

/// An actor that is born when a moment closes.
#[derive(Drop)]
pub struct Newborn<A> {
    /// Its number.
    pub id: ActorId,
    /// `<kind>-<id>`.
    pub name: Name,
    /// Its state before its first event.
    pub state: A,
    /// The actor that asked for it.
    pub creator: ActorId,
    /// Its place, from 0, in its creator's list of births.
    pub index: u32,
}

/// How many are born at a moment, where the next newborn has the number `next` and no actor may have one
/// past `max_actors`. Ok is their count: nobody shows a fault, and no newborn has a number past
/// `max_actors`. Err is the fault of the first report that shows one, which is 902 where a newborn of that
/// actor would have a number past `max_actors`, unless the actor shows an earlier fault.
pub fn count_births<A: Actor>(
    reports: &[Report<A>],
    max_actors: u32,
    next: u32,
    at: Moment,
) -> Result<usize, Fault>
    requires { next ≤ max_actors + 1 }
    ensures fault { IfErr result (λ fault. first_fault A.meaning max_actors next at reports.now ≡ Some fault) }
    ensures none { IfOk result (λ _. first_fault A.meaning max_actors next at reports.now ≡ None) }
    ensures count { IfOk result (λ count. next + count ≡ next_after next reports.now) }
    ensures room { IfOk result (λ count. next + count ≤ max_actors + 1) }
{
    let most = u64::from(max_actors) + 1 - u64::from(next);
    let mut room = most;
    for report in reports {
        let births = report.outcome.births.len() as u64;
        if let Some(code) = fault_among(&report.outcome, at, room < births) {
            return Err(Fault {
                actor: report.id,
                code,
            });
        }
        room -= births;
    }
    Ok((most - room) as usize)
}

/// Those who retire, in the order of their reports. Err is want of memory.
pub fn retired<A>(alloc: Global, reports: &[Report<A>]) -> Result<Items<ActorId>, Memory>
    ensures { IfOk result (λ ids. ids ≡ retired reports.now) }
{
    Ok(Items::of(retiring(alloc, reports)?))
}

fn retiring<A>(alloc: Global, reports: &[Report<A>]) -> Result<Vec<ActorId>, AllocError>
    ensures { IfOk result (λ ids. ids.items ≡ retired reports.now) }
{
    reports
        .iter()
        .filter(|report| report.outcome.retire)
        .map(|report| report.id)
        .collect(alloc)
}

/// Takes the births out of a report.
fn take_births<A>(alloc: Global, report: &mut Report<A>) -> Items<A>
    ensures births { result ≡ report.old.outcome.births }
    ensures rest { report.new ≡ without_births report.old }
{
    mem::replace(&mut report.outcome.births, Items::new(alloc))
}

/// Adds the births of one creator, the first of which has the number `first`.
fn bear<A: Actor + Drop>(
    born: &mut Vec<Newborn<A>>,
    creator: ActorId,
    first: u64,
    states: Vec<A>,
) -> Result<(), Memory>
    requires { first + length states.items ≤ 2 ^ 32 }
    ensures { OnOk result (born.new.items ≡ born.old.items ++ births_from A.meaning creator 0 first states.items) }
{
    for (index, state) in states.into_iter().enumerate() {
        let id = ActorId((first + index as u64) as u32);
        born.push(Newborn {
            id,
            name: Name::born(state.kind(), id),
            state,
            creator,
            index: index as u32,
        })?;
    }
    Ok(())
}

/// The births of reports, taken out of them. The first has the number `next`, and there are `count`.
pub(crate) fn take_all_births<A: Actor + Drop>(
    alloc: Global,
    reports: &mut [Report<A>],
    next: u32,
    count: usize,
) -> Result<Vec<Newborn<A>>, Memory>
    requires { next_after next reports.old ≤ 2 ^ 32 }
    ensures born { IfOk result (λ born. born.items ≡ births_of_moment A.meaning next reports.old) }
    ensures kept { OnOk result (reports.new ≡ map without_births reports.old) }
{
    let mut born = Vec::with_capacity(alloc, count)?;
    let mut first = u64::from(next);
    for report in reports.iter_mut() {
        let states = take_births(alloc, report);
        let after = first + states.len() as u64;
        bear(&mut born, report.id, first, states.into_vec())?;
        first = after;
    }
    Ok(born)
}

/// The reports of a moment without their births, and the births, the first of which has the number
/// `next`. Room is made for `count` of them, which is how many there are. Err is want of memory; the
/// reports are gone then.
pub fn bear_all<A: Actor + Drop>(
    alloc: Global,
    reports: Items<Report<A>>,
    next: u32,
    count: usize,
) -> Result<(Items<Report<A>>, Items<Newborn<A>>), Memory>
    requires count { next + count ≡ next_after next reports }
    requires numbers { next_after next reports ≤ 2 ^ 32 }
    ensures kept { IfOk result (λ parts. parts.0 ≡ map without_births reports) }
    ensures born { IfOk result (λ parts. parts.1 ≡ births_of_moment A.meaning next reports) }
{
    let mut kept = reports.into_vec();
    let born = take_all_births(alloc, &mut kept, next, count)?;
    Ok((Items::of(kept), Items::of(born)))
}

/// Adds the letters that tell creators of births, in the order of the newborn.
pub(crate) fn add_birth_letters<A>(
    letters: &mut Vec<Letter>,
    born: &[Newborn<A>],
) -> Result<(), Memory>
    ensures { OnOk result (letters.new.items ≡ letters.old.items ++ map birth_letter born.now) }
{
    for newborn in born {
        letters.push(Letter {
            to: newborn.creator,
            from: ActorId(0),
            serial: newborn.index,
            payload: Payload {
                code: 0,
                a: i64::from(newborn.index),
                b: i64::from(newborn.id.0),
            },
        })?;
    }
    Ok(())
}

/// The letters that tell creators of births, in the order of the newborn. Err is want of memory.
pub fn birth_letters<A>(alloc: Global, born: &[Newborn<A>]) -> Result<Items<Letter>, Memory>
    ensures { IfOk result (λ letters. letters ≡ map birth_letter born.now) }
{
    let mut letters = Vec::with_capacity(alloc, born.len())?;
    add_birth_letters(&mut letters, born)?;
    Ok(Items::of(letters))
}
