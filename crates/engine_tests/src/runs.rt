use crate::Elder;
use crate::cases::{CASES, ELDERS, End, PLANS};
use crate::pieces::{Pace, by_pieces};
use actor_trait::Actor;
use agenda_wheel::WheelAgenda;
use placement::{Plan, Policy};
use quiescence::Rounds;
use scenario::Scenario;
use sim_base::{ActorId, Items, Moment, Name, OpenGate, Row};
use sim_model::{Member, Results, Setup, Start, plain_run};
use std::alloc::Global;
use std::process::Abort;
use std::test::Fail;
use std::thread::Threads;
use tick_advance::run;

fn plan_of(workers: u32, managers: u32, policy: Policy) -> Result<Plan, Fail> {
    let are_workers = 1 <= workers && workers <= 64;
    let are_managers = 1 <= managers && managers <= 16;
    if !are_workers || !are_managers {
        return Err(Fail::from("no plan"));
    }
    Ok(Plan {
        workers,
        managers,
        fanout: 2,
        policy,
    })
}

fn are_rows(rows: &[Row], expected: &[(u64, u32, u32, u32, i64)]) -> bool {
    rows.len() == expected.len()
        && rows.iter().zip(expected).all(|(row, (tick, diasca, actor, probe, value))| {
            (
                row.at.tick,
                row.at.diasca,
                row.actor.0,
                row.probe,
                row.value,
            ) == (*tick, *diasca, *actor, *probe, *value)
        })
}

/// Whether both name the same actors.
pub(crate) fn is_same_cast(cast: &[Member], other: &[Member]) -> bool {
    cast.len() == other.len()
        && cast.iter().zip(other).all(|(a, b)| (a.id, a.name, a.kind.get().name)
            == (b.id, b.name, b.kind.get().name))
}

/// What a run gave is what one thread gives, and what is expected.
pub(crate) fn is_end<R: Abort>(
    rt: &R,
    results: &Results,
    rounds: &Rounds,
    plain: &Results,
    end: &End,
) {
    assert!(rt; results.rows.as_slice() == plain.rows.as_slice());
    assert!(rt; are_rows(results.rows.as_slice(), end.rows));
    assert!(rt; is_same_cast(results.cast.as_slice(), plain.cast.as_slice()));
    assert_eq!(rt; results.cast.len(), end.cast);
    let (tick, diasca) = end.last;
    let last = Moment { tick, diasca };
    let came = (results.ending, results.last, results.dead_letters);
    assert_eq!(rt; came, (end.ending, last, end.dead_letters));
    assert_eq!(rt; rounds.numbers(), end.rounds);
}

/// Under each plan the run comes to its end, whole, by ticks and by moments.
fn comes_to<R: Abort + AllocGlobal + Sync + Threads, A: Actor + Send + Sync + Drop>(
    rt: &R,
    setup: &Setup<A>,
    end: &End,
) -> Result<(), Fail> {
    let alloc = rt.alloc();
    let plain = plain_run(alloc, setup)?;
    for &(workers, managers, policy) in &PLANS {
        let plan = plan_of(workers, managers, policy)?;
        let copy = setup.copy(alloc)?;
        let (results, rounds) = run::<R, A, WheelAgenda, OpenGate>(
            rt, alloc, copy, plan, &OpenGate,
        )?;
        is_end(rt, &results, &rounds, &plain, end);
        by_pieces(rt, setup.copy(alloc)?, plan, Pace::Tick, &plain, end)?;
        by_pieces(rt, setup.copy(alloc)?, plan, Pace::Moment, &plain, end)?;
    }
    Ok(())
}

#[test]
fn scenarios_run_as_on_one_thread(rt: HostRuntime) -> Result<(), Fail> {
    for case in &CASES {
        let read = Scenario::read(rt.alloc(), case.scenario.as_bytes())?;
        comes_to(&rt, &read.setup, &case.end)?;
    }
    Ok(())
}

/// A run of an elder with three heirs.
fn elders(alloc: Global, diasca_limit: u32) -> Result<Setup<Elder>, Fail> {
    if diasca_limit == 0 || diasca_limit > 65_535 {
        return Err(Fail::from("no limit"));
    }
    let mut actors = Items::new(alloc);
    actors.add(Start {
        name: Name::born("elder", ActorId(1)),
        state: Elder { left: 3 },
    })?;
    Ok(Setup {
        seed: 0,
        last_tick: 9,
        diasca_limit,
        max_actors: 4,
        actors,
        urgent: Items::new(alloc),
    })
}

#[test]
fn elders_leave_to_their_heirs(rt: HostRuntime) -> Result<(), Fail> {
    for (diasca_limit, end) in &ELDERS {
        comes_to(&rt, &elders(rt.alloc(), *diasca_limit)?, end)?;
    }
    Ok(())
}
