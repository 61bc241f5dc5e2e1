ghost use Rattle.std.specs.Prelude.{◌≡◌, IfOk, OnOk};
ghost use Rattle.sim_base.specs.declared.moment.Ending.{Ending};
ghost use Rattle.engine_tests.specs.Pieces.{GoesOn, TellsEnd};
ghost use Rattle.tick_advance.specs.Standing.{sim_of};
ghost use Rattle.tick_advance.specs.declared.position.Position.TheVariants as position;

use crate::cases::End;
use crate::runs::{is_end, is_same_cast};
use actor_trait::Actor;
use agenda_wheel::WheelAgenda;
use placement::Plan;
use probes::{KeepAll, Sieve};
use sim_base::{Ending, OpenGate, Row};
use sim_model::{Results, Setup};
use std::process::Abort;
use std::test::Fail;
use std::thread::Threads;
use tick_advance::{Progress, Sim, Step};

/// More moments than any run here has.
const MOST: u32 = 20;

/// How far a run goes at a time.
#[derive(Clone, Copy)]
pub(crate) enum Pace {
    Moment,
    Tick,
}

/// Goes on by a moment, and adds the rows that are fresh. Some is how the run ended.
fn moment_on<R: Threads + Sync, A: Actor + Send + Sync + Drop, S: Sieve + Drop>(
    rt: &R,
    sim: &mut Sim<A, WheelAgenda, S>,
    rows: &mut Vec<Row>,
) -> Result<Option<Ending>, Fail>
    ensures stands { OnOk result (GoesOn A.meaning (sim_of S.keeps sim.old) (sim_of S.keeps sim.new)) }
    ensures over { IfOk result (TellsEnd A.meaning (sim_of S.keeps sim.old) (sim_of S.keeps sim.new)) }
{
    let went = sim.diasca(rt, &OpenGate)?;
    rows.extend_from_slice(sim.fresh()?.as_slice())?;
    Ok(match went {
        Step::Ended(ending) => Some(ending),
        Step::NextTick | Step::NextDiasca => None,
    })
}

/// Goes on by a tick, and adds the rows that are fresh. Some is how the run ended.
fn tick_on<R: Threads + Sync, A: Actor + Send + Sync + Drop, S: Sieve + Drop>(
    rt: &R,
    sim: &mut Sim<A, WheelAgenda, S>,
    rows: &mut Vec<Row>,
) -> Result<Option<Ending>, Fail>
    ensures stands { OnOk result (GoesOn A.meaning (sim_of S.keeps sim.old) (sim_of S.keeps sim.new)) }
    ensures over { IfOk result (TellsEnd A.meaning (sim_of S.keeps sim.old) (sim_of S.keeps sim.new)) }
{
    let went = sim.tick(rt, &OpenGate)?;
    rows.extend_from_slice(sim.fresh()?.as_slice())?;
    Ok(match went {
        Progress::Ended(ending) => Some(ending),
        Progress::Going => None,
    })
}

/// Goes on at this pace, and adds the rows that are fresh. Some is how the run ended.
fn go_on<R: Threads + Sync, A: Actor + Send + Sync + Drop, S: Sieve + Drop>(
    rt: &R,
    sim: &mut Sim<A, WheelAgenda, S>,
    pace: Pace,
    rows: &mut Vec<Row>,
) -> Result<Option<Ending>, Fail>
    ensures stands { OnOk result (GoesOn A.meaning (sim_of S.keeps sim.old) (sim_of S.keeps sim.new)) }
    ensures over { IfOk result (TellsEnd A.meaning (sim_of S.keeps sim.old) (sim_of S.keeps sim.new)) }
{
    match pace {
        Pace::Moment => moment_on(rt, sim, rows),
        Pace::Tick => tick_on(rt, sim, rows),
    }
}

/// Whether one more moment changes nothing: the run is over, and stands where it ended.
fn stays_over<R: AllocGlobal + Sync + Threads, A: Actor + Send + Sync + Drop>(
    rt: &R,
    sim: &mut Sim<A, WheelAgenda, KeepAll>,
    plain: &Results,
    ending: Ending,
) -> Result<bool, Fail>
    ensures same { (e : Ending) → sim.old.position ≡ position.Ended e → sim.new ≡ sim.old }
{
    let went = sim.diasca(rt, &OpenGate)?;
    let cast = sim.copy_cast(rt.alloc())?;
    let is_there = went == Step::Ended(ending) && sim.now() == plain.last;
    Ok(is_there && is_same_cast(cast.as_slice(), plain.cast.as_slice()))
}

/// A run that is over stays so, and gives what it must.
fn ends<R: Abort + AllocGlobal + Sync + Threads, A: Actor + Send + Sync + Drop>(
    rt: &R,
    mut sim: Sim<A, WheelAgenda, KeepAll>,
    plain: &Results,
    end: &End,
) -> Result<(), Fail>
    requires over { (e : Ending) × (sim.position ≡ position.Ended e) }
{
    let stays = stays_over(rt, &mut sim, plain, end.ending)?;
    let (results, rounds) = sim.results()?;
    assert!(rt; stays);
    is_end(rt, &results, &rounds, plain, end);
    Ok(())
}

/// The run piece by piece: the rows that were fresh after each piece, joined, are all.
pub(crate) fn by_pieces<R: Abort + AllocGlobal + Sync + Threads, A: Actor + Send + Sync + Drop>(
    rt: &R,
    setup: Setup<A>,
    plan: Plan,
    pace: Pace,
    plain: &Results,
    end: &End,
) -> Result<(), Fail> {
    let mut rows = Vec::new(rt.alloc());
    let mut sim = Sim::<A, WheelAgenda, _>::open(rt.alloc(), setup, plan, KeepAll)?;
    for _piece in 0..MOST {
        if let Some(ending) = go_on(rt, &mut sim, pace, &mut rows)? {
            assert!(rt; ending == end.ending && rows.as_slice() == plain.rows.as_slice());
            return ends(rt, sim, plain, end);
        }
    }
    Err(Fail::from("it goes on"))
}
