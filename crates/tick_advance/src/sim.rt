ghost use Rattle.std.specs.Prelude.{◌≡◌, ◌≢◌, ◌+◌, ℕ, List, true, drop, is_err, length, IfOk, OnErr, OnOk};
ghost use Rattle.sim_base.specs.declared.moment.Ending.{Ending};
ghost use Rattle.sim_base.specs.declared.moment.Row.{Row};
ghost use Rattle.sim_model.specs.SetupParts.{SetupParts};
ghost use Rattle.tick_advance.specs.Log.{HasRows, kept, log_of};
ghost use Rattle.tick_advance.specs.RoundsOf.{rounds_of};
ghost use Rattle.tick_advance.specs.RunKept.{IsRunKept};
ghost use Rattle.tick_advance.specs.Standing.{StandsFor, sim_of};
ghost use Rattle.tick_advance.specs.declared.position.Position.TheVariants as position;

use crate::Position;
use crate::log::Log;
use actor_trait::Actor;
use agenda::Agenda;
use local_manager::World;
use manager_tree::Tree;
use placement::Plan;
use probes::Sieve;
use quiescence::Rounds;
use sim_base::{Ending, Items, Memory, Moment, Row};
use sim_model::{Member, Results, Setup};
use std::alloc::Global;
use std::marker::Model;

/// A run that workers make: the world by managers, the rows so far that a sieve keeps, and the rounds that
/// were closed.
/// Between two calls it stands for a point of the run of its setup, which is that of one thread.
#[derive(Drop)]
pub struct Sim<A: Actor, G: Agenda, S: Sieve> {
    pub(crate) alloc: Global,
    pub(crate) world: World<A, G>,
    pub(crate) tree: Tree,
    /// The most hands that work at a moment.
    pub(crate) workers: u32,
    pub(crate) log: Log<S>,
    pub(crate) rounds: Rounds,
    /// The block of the round closed last, for the next one.
    pub(crate) words: Vec<u64>,
    pub(crate) position: Position,
}

impl<A: Actor, G: Agenda, S: Sieve> Model for Sim<A, G, S> {
    ghost use Rattle.tick_advance.specs.Log.{log_of};
    ghost use Rattle.tick_advance.specs.Sound.{IsSound};
    ghost use Rattle.tick_advance.specs.Standing.{SievedSim};

    ghost Value = { SievedSim A S };

    ghost view = { λ s. record { world = s.world; log = s.log; rounds = s.rounds; position = s.position } };

    ghost invariant = { λ s. IsSound s.world (log_of S.keeps s.log) s.tree.leaves s.workers s.position };
}

impl<A: Actor + Drop, G: Agenda + Drop, S: Sieve + Drop> Sim<A, G, S> {
    /// The run of a setup before its first moment, spread by a plan, of which this sieve says what is kept.
    /// Err is want of memory; the setup is gone then.
    pub fn open(
        alloc: Global,
        setup: Setup<A>,
        plan: Plan,
        sieve: S,
    ) -> Result<Sim<A, G, S>, Memory>
        ensures stands { IfOk result (λ sim. StandsFor A.meaning setup 0 (sim_of S.keeps sim)) }
        ensures given { IfOk result (λ sim. sim.log.given ≡ 0) }
        ensures keeps { IfOk result (λ sim. S.keeps sim.log.sieve ≡ S.keeps sieve) }
    {
        let _last = setup.last_tick;
        let world = World::open(alloc, setup, plan.managers, plan.policy)?;
        let tree = Tree::of(alloc, plan.managers, plan.fanout)?;
        let log = Log::new(alloc, plan.managers, sieve)?;
        Ok(Sim {
            alloc,
            world,
            tree,
            workers: plan.workers,
            log,
            rounds: Rounds::new(),
            words: Vec::new(alloc),
            position: Position::Before(Moment { tick: 0, diasca: 0 }),
        })
    }

    /// The moment entered last, and (0,0) before the first.
    pub fn now(&self) -> Moment
        ensures { result ≡ self.now.world.moment }
    {
        self.world.now()
    }

    /// The kept rows of the moments closed so far that no earlier call gave, in live order. Err is want of
    /// memory, and each further call answers so too.
    pub fn fresh(&mut self) -> Result<Items<Row>, Memory>
        ensures fresh { IfOk result (λ fresh. (rows : List Row) → HasRows (log_of S.keeps self.old.log) rows → fresh ≡ drop self.old.log.given (kept (log_of S.keeps self.old.log) rows)) }
        ensures given { OnOk result ((rows : List Row) → HasRows (log_of S.keeps self.old.log) rows → self.new.log.given ≡ length (kept (log_of S.keeps self.old.log) rows)) }
        ensures keeps { S.keeps self.new.log.sieve ≡ S.keeps self.old.log.sieve }
        ensures stands { OnOk result ((s : SetupParts A) (k : ℕ) → StandsFor A.meaning s k (sim_of S.keeps self.old) → StandsFor A.meaning s k (sim_of S.keeps self.new)) }
        ensures lost { OnErr result (self.new.position ≡ position.Lost) }
        ensures stays_lost { self.old.position ≡ position.Lost → is_err result ≡ true }
    {
        if self.position == Position::Lost {
            return Err(Memory);
        }
        match self.log.fresh() {
            Ok(rows) => Ok(rows),
            Err(_) => self.lose(),
        }
    }

    /// Memory was wanted: nothing more can be said of the run.
    pub(crate) fn lose<T>(&mut self) -> Result<T, Memory>
        ensures lost { self.new ≡ record self.old { position = position.Lost } }
        ensures err { is_err result ≡ true }
    {
        self.position = Position::Lost;
        Err(Memory)
    }

    /// Everybody so far, ascending. Err is want of memory.
    pub fn copy_cast(&self, alloc: Global) -> Result<Items<Member>, Memory>
        ensures { IfOk result (λ cast. cast ≡ self.now.world.one.cast) }
    {
        self.world.copy_cast(alloc)
    }

    /// What the run gave, its kept rows alone, and the rounds that were closed for it: its run is over. Err
    /// is want of memory.
    pub fn results(self) -> Result<(Results, Rounds), Memory>
        requires over { (e : Ending) × (self.position ≡ position.Ended e) }
        ensures run { IfOk result (λ r. (s : SetupParts A) (k : ℕ) → StandsFor A.meaning s k (sim_of S.keeps self) → IsRunKept A.meaning s (S.keeps self.log.sieve) r.0) }
        ensures rounds { IfOk result (λ r. (s : SetupParts A) (k : ℕ) → StandsFor A.meaning s k (sim_of S.keeps self) → r.1 ≡ rounds_of A.meaning s) }
    {
        let Sim {
            world,
            log,
            rounds,
            position,
            ..
        } = self;
        let Position::Ended(ending) = position else {
            unreachable!()
        };
        Ok((
            Results {
                rows: log.into_rows()?,
                ending,
                last: world.now(),
                dead_letters: world.dead_letters(),
                cast: world.into_cast(),
            },
            rounds,
        ))
    }
}
