ghost use Rattle.std.specs.Prelude.{◌≡◌, ◌++◌, ◌+◌, ◌≤◌, ◌<◌, ◌^◌, map, length, Some, IfOk, OnOk};
ghost use Rattle.std.specs.List.{All, AllPairs, flat_map, fold};
ghost use Rattle.sim_model.specs.Births.{member_born, next_after};
ghost use Rattle.sim_model.specs.Moment.{agenda_after, ask, ask_of, close, close_with, next_id, put_state, rows_of, states_after};

use crate::births::{retired, take_all_births};
use crate::cast::add_members;
use crate::due_set::DueSet;
use crate::ids::empty;
use crate::letters::{collect_letters, keep_living};
use crate::{Member, Newborn, Report, WorldState};
use actor_trait::Actor;
use agenda::Due;
use sim_base::{ActorId, Items, Memory, Moment, Row};
use std::alloc::{AllocError, Global};
use std::mem;

impl<A: Actor + Drop> WorldState<A> {
    /// Closes a moment at which nobody shows a fault and `count` are born. The reports are used up, and
    /// their room stays. Err is want of memory; the world may then be anything.
    pub(crate) fn close(
        &mut self,
        alloc: Global,
        reports: &mut Vec<Report<A>>,
        count: usize,
    ) -> Result<(), Memory>
        requires states { length self.old.states + 1 < 2 ^ 32 }
        requires ascending { AllPairs (λ r q. r.id.0 < q.id.0) reports.old.items }
        requires sends { All (λ r. length r.outcome.sends ≤ 1024) reports.old.items }
        requires count { next_id self.old + count ≡ next_after (next_id self.old) reports.old.items }
        requires numbers { next_after (next_id self.old) reports.old.items ≤ 2 ^ 32 }
        ensures { OnOk result (self.new ≡ close A.meaning self.old reports.old.items) }
    {
        let next = self.next_id();
        let born = take_all_births(alloc, reports, next, count)?;
        self.close_with(alloc, reports, born)
    }

    /// Closes a moment whose newborn were taken out of its reports.
    fn close_with(
        &mut self,
        alloc: Global,
        kept: &mut Vec<Report<A>>,
        born: Vec<Newborn<A>>,
    ) -> Result<(), Memory>
        requires ascending { AllPairs (λ r q. r.id.0 < q.id.0) kept.old.items }
        requires sends { All (λ r. length r.outcome.sends ≤ 1024) kept.old.items }
        ensures { OnOk result (self.new ≡ close_with A.meaning self.old kept.old.items born.items) }
    {
        close_agenda(alloc, &mut self.agenda, kept)?;
        let mut letters = mem::replace(&mut self.letters, Items::new(alloc)).into_vec();
        collect_letters(&mut letters, kept, &born)?;
        self.newborn = Items::of(ids_of(alloc, &born)?);
        empty(alloc, &mut self.scheduled);
        close_cast(alloc, &mut self.cast, &born)?;
        close_states(alloc, &mut self.states, kept, born)?;
        let dead = keep_living(&mut letters, self.states.as_slice());
        self.letters = Items::of(letters);
        self.dead_letters = self.dead_letters.saturating_add(dead as u64);
        Ok(())
    }
}

fn add_rows_of<A>(rows: &mut Vec<Row>, at: Moment, report: &Report<A>) -> Result<(), Memory>
    ensures { OnOk result (rows.new.items ≡ rows.old.items ++ rows_of at report.now) }
{
    for sample in report.outcome.samples.as_slice() {
        rows.push(Row {
            at,
            actor: report.id,
            probe: sample.probe,
            value: sample.value,
        })?;
    }
    Ok(())
}

/// Adds the rows of a moment.
pub(crate) fn add_rows<A>(
    alloc: Global,
    rows: &mut Items<Row>,
    at: Moment,
    reports: &[Report<A>],
) -> Result<(), Memory>
    ensures { OnOk result (rows.new ≡ rows.old ++ flat_map (rows_of at) reports.now) }
{
    let mut all = mem::replace(rows, Items::new(alloc)).into_vec();
    for report in reports {
        add_rows_of(&mut all, at, report)?;
    }
    *rows = Items::of(all);
    Ok(())
}

fn ask(agenda: &mut DueSet, actor: ActorId, ticks: &[u64]) -> Result<(), Memory>
    ensures { OnOk result (agenda.new ≡ ask actor agenda.old ticks.now) }
{
    for tick in ticks {
        agenda.add(Due { tick: *tick, actor })?;
    }
    Ok(())
}

fn ask_all<A>(agenda: &mut DueSet, reports: &[Report<A>]) -> Result<(), Memory>
    ensures { OnOk result (agenda.new ≡ fold ask_of agenda.old reports.now) }
{
    for report in reports {
        ask(agenda, report.id, report.outcome.ticks.as_slice())?;
    }
    Ok(())
}

/// What was asked for joins the agenda, and the retired leave it.
fn close_agenda<A>(alloc: Global, agenda: &mut DueSet, reports: &[Report<A>]) -> Result<(), Memory>
    requires { AllPairs (λ r q. r.id.0 < q.id.0) reports.now }
    ensures { OnOk result (agenda.new ≡ agenda_after agenda.old reports.now) }
{
    ask_all(agenda, reports)?;
    let retired = retired(alloc, reports)?;
    agenda.drop_all(retired.as_slice());
    Ok(())
}

fn put_state<A: Drop>(states: &mut [Option<A>], report: Report<A>)
    ensures { states.new ≡ put_state states.old report }
{
    let Report { id, outcome } = report;
    if id.0 != 0 && (id.0 as usize) <= states.len() {
        states[id.0 as usize - 1] = if outcome.retire {
            None
        } else {
            Some(outcome.state)
        };
    }
}

/// Puts the states of those that acted in their places, the last first, and keeps the reports' room.
fn put_all<A: Drop>(states: &mut Vec<Option<A>>, reports: &mut Vec<Report<A>>)
    requires { AllPairs (λ r q. r.id.0 < q.id.0) reports.old.items }
    ensures { states.new.items ≡ fold put_state states.old.items reports.old.items }
{
    while let Some(report) = reports.pop() {
        put_state(states, report);
    }
}

fn add_newborn<A: Drop>(states: &mut Vec<Option<A>>, born: Vec<Newborn<A>>) -> Result<(), Memory>
    ensures { OnOk result (states.new.items ≡ states.old.items ++ map (λ b. Some b.state) born.items) }
{
    for newborn in born {
        states.push(Some(newborn.state))?;
    }
    Ok(())
}

/// The states of those that acted are put in their places, and the newborn are added.
fn close_states<A: Drop>(
    alloc: Global,
    states: &mut Items<Option<A>>,
    reports: &mut Vec<Report<A>>,
    born: Vec<Newborn<A>>,
) -> Result<(), Memory>
    requires { AllPairs (λ r q. r.id.0 < q.id.0) reports.old.items }
    ensures { OnOk result (states.new ≡ states_after states.old reports.old.items born.items) }
{
    let mut all = mem::replace(states, Items::new(alloc)).into_vec();
    put_all(&mut all, reports);
    add_newborn(&mut all, born)?;
    *states = Items::of(all);
    Ok(())
}

/// The newborn join the cast.
fn close_cast<A: Actor>(
    alloc: Global,
    cast: &mut Items<Member>,
    born: &[Newborn<A>],
) -> Result<(), Memory>
    ensures { OnOk result (cast.new ≡ cast.old ++ map (member_born A.meaning) born.now) }
{
    let mut all = mem::replace(cast, Items::new(alloc)).into_vec();
    add_members(alloc, &mut all, born)?;
    *cast = Items::of(all);
    Ok(())
}

fn ids_of<A>(alloc: Global, born: &[Newborn<A>]) -> Result<Vec<ActorId>, AllocError>
    ensures { IfOk result (λ ids. ids.items ≡ map (λ b. b.id) born.now) }
{
    born.iter().map(|newborn| newborn.id).collect(alloc)
}
