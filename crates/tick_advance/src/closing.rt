ghost use Rattle.std.specs.Prelude.{◌≡◌, ◌+◌, ◌<◌, ℕ, List, Option, true, None, Ok, is_err, IfOk, OnErr, OnOk};
ghost use Rattle.sim_base.specs.declared.ids.ActorId.{ActorId};
ghost use Rattle.sim_base.specs.declared.moment.Ending.{Ending};
ghost use Rattle.sim_base.specs.declared.moment.Moment.{Moment};
ghost use Rattle.actor_trait.specs.declared.letter.Letter.{Letter};
ghost use Rattle.actor_trait.specs.Meaning.{Meaning};
ghost use Rattle.agenda.specs.Dues.{least};
ghost use Rattle.agenda.specs.declared.due.Due.{Due};
ghost use Rattle.actor_lifecycle.specs.Settling.{settled_by};
ghost use Rattle.sim_model.specs.Moment.{fault_of_moment, next_id, next_tick, what_comes_next};
ghost use Rattle.sim_model.specs.Run.{run_after, step};
ghost use Rattle.sim_model.specs.SetupParts.{SetupParts};
ghost use Rattle.sim_model.specs.declared.births.Newborn.{Newborn};
ghost use Rattle.sim_model.specs.declared.report.Fault.{Fault};
ghost use Rattle.sim_model.specs.declared.report.Report.{Report};
ghost use Rattle.sim_model.specs.declared.settled.Settled.TheVariants as becomes;
ghost use Rattle.sim_model.specs.declared.stage.Underway.{Underway};
ghost use Rattle.local_manager.specs.Views.{reports_now};
ghost use Rattle.local_manager.specs.declared.phase.Phase.TheVariants as phase;
ghost use Rattle.tick_advance.specs.Following.{next_diasca, position_before, step_before};
ghost use Rattle.tick_advance.specs.Harvests.{CanAdvance, AreInboxesSent};
ghost use Rattle.tick_advance.specs.RoundsOf.{with_moment};
ghost use Rattle.tick_advance.specs.Standing.{IsAt, IsWithin, LeadsTo, StandsFor, StandsWithin, sim_of, step_to};
ghost use Rattle.tick_advance.specs.declared.position.Position.TheVariants as position;
ghost use Rattle.tick_advance.specs.declared.position.Step.TheVariants as went;

use crate::{Position, Sim, Step};
use actor_lifecycle::settle;
use actor_trait::Actor;
use agenda::Agenda;
use inbox_order::Inboxes;
use local_manager::World;
use probes::Sieve;
use quiescence::Closed;
use sim_base::{Ending, Items, Memory, Moment};
use sim_model::{Fault, Next, Report, Settled};

impl<A: Actor + Drop, G: Agenda + Drop, S: Sieve + Drop> Sim<A, G, S> {
    /// Closes the moment that is entered, by the reports of all that are scheduled and the inboxes of what
    /// they send, once its round is over; or the run ends where somebody shows a fault. Once the run is
    /// over nothing changes, and the answer is its end. Err is want of memory, and each further call
    /// answers so too.
    pub fn advance(
        &mut self,
        closed: Closed,
        reports: Items<Report<A>>,
        inboxes: Inboxes,
    ) -> Result<Step, Memory>
        requires harvest { CanAdvance A.meaning (sim_of S.keeps self.old) (record { closed = closed; reports = reports; inboxes = inboxes }) }
        ensures stands { OnOk result ((s : SetupParts A) (k : ℕ) → StandsWithin A.meaning s k (sim_of S.keeps self.old) → StandsFor A.meaning s (k + 1) (sim_of S.keeps self.new)) }
        ensures step { IfOk result (λ went. (s : SetupParts A) (k : ℕ) → StandsWithin A.meaning s k (sim_of S.keeps self.old) → went ≡ step_to (run_after A.meaning s (k + 1))) }
        ensures ended { (e : Ending) → self.old.position ≡ position.Ended e → (result ≡ Ok (went.Ended e)) × (self.new ≡ self.old) }
        ensures stage { OnOk result ((u : Underway A) → IsWithin (sim_of S.keeps self.old) u → IsAt (sim_of S.keeps self.new) (step A.meaning u)) }
        ensures went { IfOk result (λ went. (u : Underway A) → IsWithin (sim_of S.keeps self.old) u → went ≡ step_to (step A.meaning u)) }
        ensures leads { IfOk result (λ went. (at : Moment) → self.old.position ≡ position.Within at → LeadsTo at went self.new.position) }
        ensures parameters { OnOk result (self.new.world.one.parameters ≡ self.old.world.one.parameters) }
        ensures rounds { (at : Moment) → self.old.position ≡ position.Within at → self.new.rounds ≡ with_moment A.meaning self.old.world.one at self.old.rounds }
        ensures given { self.new.log.given ≡ self.old.log.given }
        ensures keeps { S.keeps self.new.log.sieve ≡ S.keeps self.old.log.sieve }
        ensures lost { OnErr result (self.new.position ≡ position.Lost) }
        ensures stays_lost { self.old.position ≡ position.Lost → is_err result ≡ true }
    {
        match self.position {
            Position::Within(at) => {
                let _managers = self.world.managers();
                self.words = self.rounds.add(closed);
                self.conclude(at, reports, inboxes)
            }
            Position::Before(_) => unreachable!(),
            Position::Ended(ending) => Ok(Step::Ended(ending)),
            Position::Lost => Err(Memory),
        }
    }

    /// Closes the moment that is entered, or ends the run by its fault. Err is want of memory.
    pub(crate) fn conclude(
        &mut self,
        at: Moment,
        reports: Items<Report<A>>,
        inboxes: Inboxes,
    ) -> Result<Step, Memory>
        requires within { self.old.position ≡ position.Within at }
        requires reports { reports ≡ reports_now A.meaning self.old.world }
        requires inboxes { AreInboxesSent A.meaning self.old.world inboxes }
        ensures stage { OnOk result ((u : Underway A) → IsWithin (sim_of S.keeps self.old) u → IsAt (sim_of S.keeps self.new) (step A.meaning u)) }
        ensures step { IfOk result (λ went. (u : Underway A) → IsWithin (sim_of S.keeps self.old) u → went ≡ step_to (step A.meaning u)) }
        ensures leads { IfOk result (λ went. LeadsTo at went self.new.position) }
        ensures parameters { OnOk result (self.new.world.one.parameters ≡ self.old.world.one.parameters) }
        ensures rounds { self.new.rounds ≡ self.old.rounds }
        ensures given { self.new.log.given ≡ self.old.log.given }
        ensures keeps { S.keeps self.new.log.sieve ≡ S.keeps self.old.log.sieve }
        ensures lost { OnErr result (self.new.position ≡ position.Lost) }
    {
        let _managers = self.world.managers();
        let next_id = self.world.next_id();
        let settled = match settle(self.alloc, reports, at, next_id, self.world.max_actors()) {
            Ok(settled) => settled,
            Err(_) => return self.lose(),
        };
        match fault_of(&settled) {
            Some(fault) => Ok(self.end(Ending::Fault {
                actor: fault.actor,
                code: fault.code,
            })),
            None => self.close(at, settled, inboxes),
        }
    }

    /// The run is over.
    fn end(&mut self, ending: Ending) -> Step
        ensures over { self.new ≡ record self.old { position = position.Ended ending } }
        ensures step { result ≡ went.Ended ending }
    {
        self.position = Position::Ended(ending);
        Step::Ended(ending)
    }

    /// Closes the moment that is entered, at which nobody shows a fault. Err is want of memory.
    fn close(&mut self, at: Moment, settled: Settled<A>, inboxes: Inboxes) -> Result<Step, Memory>
        requires within { self.old.position ≡ position.Within at }
        requires calm { fault_of_moment A.meaning self.old.world.one at (reports_now A.meaning self.old.world) ≡ None }
        requires settled { settled ≡ settled_by A.meaning (next_id self.old.world.one) (reports_now A.meaning self.old.world) None }
        requires inboxes { AreInboxesSent A.meaning self.old.world inboxes }
        ensures stage { OnOk result ((u : Underway A) → IsWithin (sim_of S.keeps self.old) u → IsAt (sim_of S.keeps self.new) (step A.meaning u)) }
        ensures step { IfOk result (λ went. (u : Underway A) → IsWithin (sim_of S.keeps self.old) u → went ≡ step_to (step A.meaning u)) }
        ensures leads { IfOk result (λ went. LeadsTo at went self.new.position) }
        ensures parameters { OnOk result (self.new.world.one.parameters ≡ self.old.world.one.parameters) }
        ensures rounds { self.new.rounds ≡ self.old.rounds }
        ensures given { self.new.log.given ≡ self.old.log.given }
        ensures keeps { S.keeps self.new.log.sieve ≡ S.keeps self.old.log.sieve }
        ensures lost { OnErr result (self.new.position ≡ position.Lost) }
    {
        self.position = Position::Lost;
        let _managers = self.world.managers();
        self.log.add(at, kept_of(&settled), &self.world)?;
        self.world.close(settled, inboxes)?;
        let next = what_comes_next(&self.world);
        self.position = position_before(next);
        Ok(step_before(next))
    }
}

/// The fault that somebody shows, if any.
fn fault_of<A>(settled: &Settled<A>) -> Option<Fault>
    ensures { (m : Meaning A) (next : ℕ) (rs : List (Report A)) (fault : Option Fault) → settled.now ≡ settled_by m next rs fault → result ≡ fault }
{
    match settled {
        Settled::Faulted { actor, code } => Some(Fault {
            actor: *actor,
            code: *code,
        }),
        Settled::Settled { .. } => None,
    }
}

/// The reports of a moment without the newborn; none where it shows a fault.
fn kept_of<A>(settled: &Settled<A>) -> &[Report<A>]
    ensures { (kept : List (Report A)) (born : List (Newborn A)) (letters : List Letter) (retired : List ActorId)
        → settled.now ≡ becomes.Settled kept born letters retired → result.now ≡ kept }
{
    match settled {
        Settled::Faulted { .. } => &[],
        Settled::Settled { kept, .. } => kept.as_slice(),
    }
}

/// Where a run stands that this comes next for.
fn position_before(next: Next) -> Position
    ensures { result ≡ position_before next }
{
    match next {
        Next::Enters(at) => Position::Before(at),
        Next::Ends(ending) => Position::Ended(ending),
    }
}

/// What a moment led to that this comes after.
fn step_before(next: Next) -> Step
    ensures { result ≡ step_before next }
{
    match next {
        Next::Enters(at) if at.diasca == 0 => Step::NextTick,
        Next::Enters(_) => Step::NextDiasca,
        Next::Ends(ending) => Step::Ended(ending),
    }
}

/// What comes after the moment that a world closed last.
fn what_comes_next<A: Actor + Drop, G: Agenda + Drop>(world: &World<A, G>) -> Next
    requires closed { world.now.phase ≡ phase.Closed }
    requires diasca { world.now.moment.diasca < world.now.one.parameters.diasca_limit }
    ensures { result ≡ what_comes_next world.now.one world.now.moment }
{
    let at = world.now();
    if world.pending() {
        next_diasca(at, world.parameters().diasca_limit)
    } else {
        next_tick(world.least(), world.parameters().last_tick)
    }
}

/// The next diasca, if it isn't the limit.
fn next_diasca(at: Moment, diasca_limit: u32) -> Next
    requires { at.diasca < diasca_limit }
    ensures { result ≡ next_diasca at diasca_limit }
{
    let diasca = at.diasca + 1;
    if diasca == diasca_limit {
        Next::Ends(Ending::DiascaLimit)
    } else {
        Next::Enters(Moment {
            tick: at.tick,
            diasca,
        })
    }
}

/// The least tick that somebody asked for, if it isn't past the last.
fn next_tick(asked: Option<u64>, last_tick: u64) -> Next
    ensures { (dues : List Due) → asked ≡ least dues → result ≡ next_tick last_tick dues }
{
    match asked {
        None => Next::Ends(Ending::Exhausted),
        Some(tick) if tick > last_tick => Next::Ends(Ending::TickLimit),
        Some(tick) => Next::Enters(Moment { tick, diasca: 0 }),
    }
}
