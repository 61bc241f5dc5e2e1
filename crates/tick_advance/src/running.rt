ghost use Rattle.std.specs.Prelude.{◌≡◌, IfOk};
ghost use Rattle.sim_model.specs.Run.{IsRun};
ghost use Rattle.tick_advance.specs.RoundsOf.{rounds_of};
ghost use Rattle.tick_advance.specs.RunKept.{IsRunKept};

use crate::{Progress, Sim};
use actor_trait::Actor;
use agenda::Agenda;
use placement::Plan;
use probes::{KeepAll, Sieve};
use quiescence::Rounds;
use sim_base::{Gate, Memory};
use sim_model::{Results, Setup};
use std::alloc::Global;
use std::thread::Threads;

/// The run of a setup by workers, as a plan spreads it: what it gives, and the rounds that were closed for
/// it. Whatever the plan and the order of the workers' steps, it is the run of one thread. Err is want of
/// memory, and comes of nothing else.
pub fn run<
    R: Threads + Sync,
    A: Actor + Send + Sync + Drop,
    G: Agenda + Send + Sync + Drop,
    T: Gate + Sync,
>(rt: &R, alloc: Global, setup: Setup<A>, plan: Plan, gate: &T) -> Result<(Results, Rounds), Memory>
    ensures run { IfOk result (λ r. IsRun A.meaning setup r.0) }
    ensures rounds { IfOk result (λ r. r.1 ≡ rounds_of A.meaning setup) }
{
    run_kept::<R, A, G, KeepAll, T>(rt, alloc, setup, plan, KeepAll, gate)
}

/// The run of a setup by workers, as `run` gives it, but for the rows that a sieve doesn't keep, which take
/// no memory. Err is want of memory, and comes of nothing else.
pub fn run_kept<
    R: Threads + Sync,
    A: Actor + Send + Sync + Drop,
    G: Agenda + Send + Sync + Drop,
    S: Sieve + Drop,
    T: Gate + Sync,
>(
    rt: &R,
    alloc: Global,
    setup: Setup<A>,
    plan: Plan,
    sieve: S,
    gate: &T,
) -> Result<(Results, Rounds), Memory>
    ensures run { IfOk result (λ r. IsRunKept A.meaning setup (S.keeps sieve) r.0) }
    ensures rounds { IfOk result (λ r. r.1 ≡ rounds_of A.meaning setup) }
{
    let mut sim = Sim::<A, G, S>::open(alloc, setup, plan, sieve)?;
    loop {
        if let Progress::Ended(_) = sim.tick(rt, gate)? {
            return sim.results();
        }
    }
}
