ghost use Rattle.std.specs.Prelude.{◌≡◌, ◌++◌, ◌+◌, ◌<◌, ◌^◌, length, map, true, Some, IfOk, OnOk};
ghost use Rattle.std.specs.Option.{option_copied};
ghost use Rattle.std.specs.List.{fold};
ghost use Rattle.sim_model.specs.Moment.{ask_of, is_alive, living_from, put_state, state_of};

use crate::directory::Directory;
use agenda::Agenda;
use sim_base::{ActorId, Memory};
use sim_model::{Newborn, Report, Start};
use std::alloc::Global;

/// The state of an actor among these, by number from 1; None where it is gone or was never there.
pub(crate) fn find<A>(states: &[Option<A>], id: ActorId) -> Option<&A>
    ensures { option_copied result ≡ state_of states.now id }
{
    if id.0 == 0 {
        return None;
    }
    match states.get(id.0 as usize - 1) {
        Some(state) => state.as_ref(),
        None => None,
    }
}

/// Whether an actor is alive.
pub(crate) fn is_alive<A>(states: &[Option<A>], id: ActorId) -> bool
    ensures { result ≡ is_alive states.now id }
{
    find(states, id).is_some()
}

/// The next state of one that acted, or none if it retires.
fn put_state<A: Drop>(states: &mut [Option<A>], report: Report<A>)
    ensures { states.new ≡ put_state states.old report }
{
    let Report { id, outcome } = report;
    if id.0 != 0 && (id.0 as usize) <= states.len() {
        states[id.0 as usize - 1] = if outcome.retire {
            None
        } else {
            Some(outcome.state)
        };
    }
}

/// What came of one: its next state, and the ticks that it asks for. Err is want of memory.
fn apply<A: Drop, G: Agenda + Drop>(
    states: &mut [Option<A>],
    directory: &mut Directory<G>,
    report: Report<A>,
) -> Result<(), Memory>
    ensures states { OnOk result (states.new ≡ put_state states.old report) }
    ensures agenda { OnOk result (directory.new ≡ record directory.old { agenda = ask_of directory.old.agenda report }) }
{
    directory.ask(report.id, report.outcome.ticks.as_slice())?;
    put_state(states, report);
    Ok(())
}

/// What came of all that acted. Err is want of memory; some may be applied then.
pub(crate) fn apply_all<A: Drop, G: Agenda + Drop>(
    states: &mut Vec<Option<A>>,
    directory: &mut Directory<G>,
    reports: &mut Vec<Report<A>>,
) -> Result<(), Memory>
    ensures states { OnOk result (states.new.items ≡ fold put_state states.old.items reports.old.items) }
    ensures agenda { OnOk result (directory.new ≡ record directory.old { agenda = fold ask_of directory.old.agenda reports.old.items }) }
{
    for report in reports.drain(..) {
        apply(states, directory, report)?;
    }
    Ok(())
}

/// The states of the newborn behind those of all others. Err is want of memory; some may be added then.
pub(crate) fn add_newborn<A: Drop>(
    states: &mut Vec<Option<A>>,
    born: Vec<Newborn<A>>,
) -> Result<(), Memory>
    ensures { OnOk result (states.new.items ≡ states.old.items ++ map (λ b. Some b.state) born.items) }
{
    for newborn in born {
        states.push(Some(newborn.state))?;
    }
    Ok(())
}

/// The numbers of the living, ascending. Err is want of memory.
pub(crate) fn living<A>(alloc: Global, states: &[Option<A>]) -> Result<Vec<ActorId>, Memory>
    requires { length states.now + 1 < 2 ^ 32 }
    ensures { IfOk result (λ ids. ids.items ≡ living_from 1 states.now) }
{
    let mut ids = Vec::with_capacity(alloc, states.len())?;
    let mut next = 1;
    for state in states {
        if state.is_some() {
            ids.push(ActorId(next))?;
        }
        next += 1;
    }
    Ok(ids)
}

/// The state of a living actor.
pub(crate) fn living_state<A>(states: &[Option<A>], id: ActorId) -> &A
    requires { is_alive states.now id ≡ true }
    ensures { state_of states.now id ≡ Some result.now }
{
    match find(states, id) {
        Some(state) => state,
        None => unreachable!(),
    }
}

/// The states of initial actors. Err is want of memory.
pub(crate) fn first_states<A: Drop>(
    alloc: Global,
    starts: Vec<Start<A>>,
) -> Result<Vec<Option<A>>, Memory>
    ensures { IfOk result (λ states. states.items ≡ map (λ a. Some a.state) starts.items) }
{
    let mut states = Vec::with_capacity(alloc, starts.len())?;
    for start in starts {
        states.push(Some(start.state))?;
    }
    Ok(states)
}
