ghost use Rattle.std.specs.Prelude.{◌≡◌, ◌+◌, ℕ, [], true, Ok, is_err, IfOk, OnErr, OnOk};
ghost use Rattle.sim_base.specs.declared.moment.Ending.{Ending};
ghost use Rattle.sim_base.specs.declared.moment.Moment.{Moment};
ghost use Rattle.sim_model.specs.Run.{run_after, step};
ghost use Rattle.sim_model.specs.SetupParts.{SetupParts};
ghost use Rattle.sim_model.specs.declared.stage.Underway.{Underway};
ghost use Rattle.tick_advance.specs.RoundsOf.{with_moment};
ghost use Rattle.tick_advance.specs.Standing.{IsAt, IsBefore, IsOn, IsWithin, LeadsTo, PassesTick, StandsFor, progress_to, sim_of, step_to};
ghost use Rattle.tick_advance.specs.declared.position.Position.TheVariants as position;
ghost use Rattle.tick_advance.specs.declared.position.Progress.TheVariants as progress;
ghost use Rattle.tick_advance.specs.declared.position.Step.TheVariants as went;

use crate::hands::hands_for;
use crate::{Position, Progress, Sim, Step};
use actor_trait::Actor;
use agenda::Agenda;
use inbox_order::Inboxes;
use probes::Sieve;
use sim_base::{Gate, Items, Memory, Moment};
use std::mem;
use std::thread::Threads;
use work_claims::{Blocks, crew_in};

impl<A: Actor + Send + Sync + Drop, G: Agenda + Send + Sync + Drop, S: Sieve + Drop> Sim<A, G, S> {
    /// One moment: it is entered, all that are scheduled act by as many hands as the work pays for, and it
    /// is closed, unless somebody shows a fault. Where nobody is scheduled no round is opened. Once the run
    /// is over nothing changes, and the answer is its end. Err is want of memory, and each further call
    /// answers so too.
    pub fn diasca<R: Threads + Sync, T: Gate + Sync>(
        &mut self,
        rt: &R,
        gate: &T,
    ) -> Result<Step, Memory>
        ensures stands { OnOk result ((s : SetupParts A) (k : ℕ) → StandsFor A.meaning s k (sim_of S.keeps self.old) → StandsFor A.meaning s (k + 1) (sim_of S.keeps self.new)) }
        ensures step { IfOk result (λ went. (s : SetupParts A) (k : ℕ) → StandsFor A.meaning s k (sim_of S.keeps self.old) → went ≡ step_to (run_after A.meaning s (k + 1))) }
        ensures leads { IfOk result (λ went. (at : Moment) → IsOn at self.old.position → LeadsTo at went self.new.position) }
        ensures parameters { OnOk result (self.new.world.one.parameters ≡ self.old.world.one.parameters) }
        ensures ended { (e : Ending) → self.old.position ≡ position.Ended e → (result ≡ Ok (went.Ended e)) × (self.new ≡ self.old) }
        ensures given { self.new.log.given ≡ self.old.log.given }
        ensures keeps { S.keeps self.new.log.sieve ≡ S.keeps self.old.log.sieve }
        ensures lost { OnErr result (self.new.position ≡ position.Lost) }
        ensures stays_lost { self.old.position ≡ position.Lost → is_err result ≡ true }
    {
        match self.position {
            Position::Before(at) => {
                self.enter(at)?;
                self.work(rt, at, gate)
            }
            Position::Within(at) => self.work(rt, at, gate),
            Position::Ended(ending) => Ok(Step::Ended(ending)),
            Position::Lost => Err(Memory),
        }
    }

    /// Enters the next moment. Err is want of memory.
    fn enter(&mut self, at: Moment) -> Result<(), Memory>
        requires before { self.old.position ≡ position.Before at }
        ensures within { OnOk result ((u : Underway A) → IsBefore (sim_of S.keeps self.old) u → IsWithin (sim_of S.keeps self.new) u) }
        ensures position { OnOk result (self.new.position ≡ position.Within at) }
        ensures now { OnOk result (self.new.world.moment ≡ at) }
        ensures rounds { self.new.rounds ≡ self.old.rounds }
        ensures parameters { OnOk result (self.new.world.one.parameters ≡ self.old.world.one.parameters) }
        ensures log { self.new.log ≡ self.old.log }
        ensures lost { OnErr result (self.new.position ≡ position.Lost) }
    {
        self.position = Position::Lost;
        self.world.enter(at)?;
        self.position = Position::Within(at);
        Ok(())
    }

    /// The moment that is entered: all that are scheduled act, and it is closed or shows a fault.
    fn work<R: Threads + Sync, T: Gate + Sync>(
        &mut self,
        rt: &R,
        at: Moment,
        gate: &T,
    ) -> Result<Step, Memory>
        requires within { self.old.position ≡ position.Within at }
        ensures stage { OnOk result ((u : Underway A) → IsWithin (sim_of S.keeps self.old) u → IsAt (sim_of S.keeps self.new) (step A.meaning u)) }
        ensures step { IfOk result (λ went. (u : Underway A) → IsWithin (sim_of S.keeps self.old) u → went ≡ step_to (step A.meaning u)) }
        ensures leads { IfOk result (λ went. LeadsTo at went self.new.position) }
        ensures parameters { OnOk result (self.new.world.one.parameters ≡ self.old.world.one.parameters) }
        ensures rounds { OnOk result (self.new.rounds ≡ with_moment A.meaning self.old.world.one at self.old.rounds) }
        ensures given { self.new.log.given ≡ self.old.log.given }
        ensures keeps { S.keeps self.new.log.sieve ≡ S.keeps self.old.log.sieve }
        ensures lost { OnErr result (self.new.position ≡ position.Lost) }
    {
        let scheduled = self.world.count_scheduled();
        if scheduled == 0 {
            return self.conclude(at, Items::new(self.alloc), Inboxes::new(self.alloc));
        }
        let is_first = self.rounds.numbers()[0] == 0;
        let hands = hands_for(self.workers, scheduled, is_first);
        let blocks = self.take_blocks();
        match crew_in(rt, self.alloc, blocks, &self.world, &self.tree, hands, gate) {
            Ok(harvest) => self.advance(harvest.closed, harvest.reports, harvest.inboxes),
            Err(_) => self.lose(),
        }
    }

    /// The blocks that the lists of the moment closed last had, and those of its round. It takes no memory.
    fn take_blocks(&mut self) -> Blocks<A>
        ensures same { self.new ≡ self.old }
        ensures room { result.room.reports.items ≡ [] }
    {
        Blocks {
            words: mem::replace(&mut self.words, Vec::new(self.alloc)),
            room: self.world.take_room(),
        }
    }

    /// Moments until the tick changes or the run ends. Once it is over nothing changes, and the answer is
    /// its end. Err is want of memory, and each further call answers so too.
    pub fn tick<R: Threads + Sync, T: Gate + Sync>(
        &mut self,
        rt: &R,
        gate: &T,
    ) -> Result<Progress, Memory>
        ensures stands { OnOk result ((s : SetupParts A) (k : ℕ) → StandsFor A.meaning s k (sim_of S.keeps self.old)
            → (j : ℕ) × PassesTick A.meaning s k j × StandsFor A.meaning s (k + j) (sim_of S.keeps self.new)) }
        ensures progress { IfOk result (λ went. (s : SetupParts A) (k : ℕ) → StandsFor A.meaning s k (sim_of S.keeps self.new) → went ≡ progress_to (run_after A.meaning s k)) }
        ensures ended { (e : Ending) → self.old.position ≡ position.Ended e → (result ≡ Ok (progress.Ended e)) × (self.new ≡ self.old) }
        ensures given { self.new.log.given ≡ self.old.log.given }
        ensures keeps { S.keeps self.new.log.sieve ≡ S.keeps self.old.log.sieve }
        ensures lost { OnErr result (self.new.position ≡ position.Lost) }
        ensures stays_lost { self.old.position ≡ position.Lost → is_err result ≡ true }
    {
        loop {
            let _position = self.position;
            match self.diasca(rt, gate)? {
                Step::NextDiasca => {}
                Step::NextTick => return Ok(Progress::Going),
                Step::Ended(ending) => return Ok(Progress::Ended(ending)),
            }
        }
    }
}
