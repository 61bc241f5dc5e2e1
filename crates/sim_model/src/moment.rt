ghost use Rattle.std.specs.Prelude.{◌≡◌, ◌+◌, ◌<◌, ◌^◌, ◌++◌, [], length, OnOk};
ghost use Rattle.std.specs.List.{cons_option};
ghost use Rattle.sim_base.specs.declared.ids.ActorId.{ActorId};
ghost use Rattle.actor_trait.specs.InboxOrder.{AreUrgent};
ghost use Rattle.inbox_order.specs.Inboxes.{inbox_of};
ghost use Rattle.sim_model.specs.Moment.{agenda_at, called, enter, inbox_at, living_from, precedence_at, report_of, reports, scheduled, what_comes_next};
ghost use Rattle.sim_model.specs.Setups.{Ascend};
ghost use Rattle.sim_model.specs.Stepping.{RisesFrom, is_occupied};
ghost use Rattle.sim_model.specs.Whole.{IsWhole};

use crate::ids::{contains, merge_ids};
use crate::{Next, Report, WorldState};
use actor_trait::{Actor, Context, Event, Letter, Precedence};
use inbox_order::Inboxes;
use sim_base::{ActorId, Ending, Items, Memory, Moment};
use std::alloc::Global;
use std::mem;

impl<A: Actor + Drop> WorldState<A> {
    /// Enters a moment: who is scheduled is kept, and a tick that is entered leaves the agenda. The inboxes
    /// become those of the moment. Err is want of memory; the agenda may then have lost some of the tick.
    pub(crate) fn enter(
        &mut self,
        alloc: Global,
        at: Moment,
        inboxes: &mut Inboxes,
    ) -> Result<(), Memory>
        requires whole { IsWhole A.meaning self.old }
        requires agenda { RisesFrom at.tick self.old.agenda }
        ensures entered { OnOk result (self.new ≡ enter self.old at) }
        ensures inboxes { OnOk result ((id : ActorId) → inbox_of inboxes.new id ≡ inbox_at self.old at id) }
    {
        self.fill_inboxes(alloc, at, inboxes)?;
        self.schedule(alloc, at, inboxes)
    }

    /// Makes the inboxes at a moment: at diasca 0 nobody has a letter.
    fn fill_inboxes(&self, alloc: Global, at: Moment, inboxes: &mut Inboxes) -> Result<(), Memory>
        requires { AreUrgent self.now.parameters.urgent }
        ensures { OnOk result ((id : ActorId) → inbox_of inboxes.new id ≡ inbox_at self.now at id) }
    {
        let precedence = self.precedence(at);
        if at.diasca == 0 {
            inboxes.renew(alloc, &[], &precedence)?;
            return Ok(());
        }
        inboxes.renew(alloc, self.letters.as_slice(), &precedence)
    }

    /// What decides the order of letters that were sent at the diasca before.
    fn precedence(&self, at: Moment) -> Precedence<'_>
        requires { AreUrgent self.now.parameters.urgent }
        ensures { result ≡ precedence_at self.now.parameters at }
    {
        let sent = Moment {
            tick: at.tick,
            diasca: at.diasca.saturating_sub(1),
        };
        Precedence {
            seed: self.parameters.seed,
            sent,
            urgent: self.parameters.urgent.as_slice(),
        }
    }

    /// Keeps who is scheduled.
    fn schedule(&mut self, alloc: Global, at: Moment, inboxes: &Inboxes) -> Result<(), Memory>
        requires whole { IsWhole A.meaning self.old }
        requires agenda { RisesFrom at.tick self.old.agenda }
        requires inboxes { (id : ActorId) → inbox_of inboxes.now id ≡ inbox_at self.old at id }
        ensures { OnOk result (self.new ≡ enter self.old at) }
    {
        let mut ids = mem::replace(&mut self.scheduled, Items::new(alloc)).into_vec();
        ids.clear();
        self.take_scheduled(&mut ids, at, inboxes)?;
        self.scheduled = Items::of(ids);
        Ok(())
    }

    /// Adds who is scheduled. A tick that is entered leaves the agenda.
    fn take_scheduled(
        &mut self,
        ids: &mut Vec<ActorId>,
        at: Moment,
        inboxes: &Inboxes,
    ) -> Result<(), Memory>
        requires count { length self.old.states + 1 < 2 ^ 32 }
        requires newborn { Ascend self.old.newborn }
        requires agenda { RisesFrom at.tick self.old.agenda }
        requires inboxes { (id : ActorId) → inbox_of inboxes.now id ≡ inbox_at self.old at id }
        ensures ids { OnOk result (ids.new.items ≡ ids.old.items ++ scheduled self.old at) }
        ensures left { OnOk result (self.new ≡ record self.old { agenda = agenda_at self.old at }) }
    {
        if at.diasca != 0 {
            merge_ids(ids, self.newborn.as_slice(), inboxes.recipients())
        } else if at.tick == 0 {
            add_living(ids, self.states.as_slice())
        } else {
            self.agenda.take(ids, at.tick)
        }
    }

    /// What comes of each that is scheduled at the moment that is entered, in place of the reports that
    /// were there.
    pub(crate) fn reports(
        &self,
        alloc: Global,
        at: Moment,
        inboxes: &Inboxes,
        all: &mut Vec<Report<A>>,
    ) -> Result<(), Memory>
        requires newborn { Ascend self.now.newborn }
        requires inboxes { (id : ActorId) → inbox_of inboxes.now id ≡ inbox_at self.now at id }
        ensures { OnOk result (all.new.items ≡ reports A.meaning self.now at) }
    {
        let scheduled = self.scheduled.as_slice();
        all.clear();
        all.reserve(scheduled.len())?;
        let mut near = 0usize;
        for id in scheduled {
            let inbox = inboxes.inbox_near(near, *id);
            near = near.saturating_add(usize::from(!inbox.is_empty()));
            self.report(alloc, at, inbox, *id, all)?;
        }
        Ok(())
    }

    /// Adds what comes of the event of one.
    fn report(
        &self,
        alloc: Global,
        at: Moment,
        inbox: &[Letter],
        id: ActorId,
        all: &mut Vec<Report<A>>,
    ) -> Result<(), Memory>
        requires newborn { Ascend self.now.newborn }
        requires inbox { inbox.now ≡ inbox_at self.now at id }
        ensures { OnOk result (all.new.items ≡ all.old.items ++ cons_option (report_of A.meaning self.now at id) []) }
    {
        let Some(state) = self.state_of(id) else {
            return Ok(());
        };
        let context = Context {
            seed: self.parameters.seed,
            now: at,
            me: id,
        };
        let event = Event {
            first: (at.tick == 0 && at.diasca == 0) || contains(self.newborn.as_slice(), id),
            spontaneous: !(at.tick == 0) && at.diasca == 0,
            inbox,
        };
        let outcome = state.act(alloc, &context, &event)?;
        all.push(Report { id, outcome })?;
        Ok(())
    }

    /// What comes after a moment that closed: the next diasca where somebody is called there, else the
    /// least tick of the agenda.
    pub(crate) fn what_comes_next(&self, at: Moment) -> Next
        requires { at.diasca < self.now.parameters.diasca_limit }
        ensures { result ≡ what_comes_next self.now at }
    {
        let limit = self.parameters.diasca_limit;
        if self.calls_somebody() {
            let diasca = at.diasca + 1;
            return if diasca == limit {
                Next::Ends(Ending::DiascaLimit)
            } else {
                Next::Enters(Moment {
                    tick: at.tick,
                    diasca,
                })
            };
        }
        match self.agenda.least() {
            None => Next::Ends(Ending::Exhausted),
            Some(tick) => {
                if self.parameters.last_tick < tick {
                    Next::Ends(Ending::TickLimit)
                } else {
                    Next::Enters(Moment { tick, diasca: 0 })
                }
            }
        }
    }

    /// Whether somebody is called at the next diasca.
    fn calls_somebody(&self) -> bool
        ensures { result ≡ is_occupied (called self.now.newborn self.now.letters) }
    {
        0 < self.newborn.len() || 0 < self.letters.len()
    }
}

/// Adds the numbers of the living.
fn add_living<A>(ids: &mut Vec<ActorId>, states: &[Option<A>]) -> Result<(), Memory>
    requires { length states.now + 1 < 2 ^ 32 }
    ensures { OnOk result (ids.new.items ≡ ids.old.items ++ living_from 1 states.now) }
{
    ids.reserve(states.len())?;
    let mut next = 1;
    for state in states {
        if state.is_some() {
            ids.push(ActorId(next))?;
        }
        next += 1;
    }
    Ok(())
}
