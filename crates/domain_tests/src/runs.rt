use crate::{Driven, Standing, drive};
use actor_trait::Actor;
use meaning_tests::{LISTENER, Puppet};
use placement::Policy;
use scenario::{AnyActor, Scenario};
use sim_base::{ActorId, Items, Name, Row};
use sim_model::{Kind, Member, Results, Setup, Start, plain_run};
use std::alloc::Global;
use std::process::Abort;
use std::test::Fail;

/// Two depots fill the machine at one tick, at whose close five trucks are born.
const TWO_DEPOTS: &str = r#"{"format": 1, "last_tick": 12, "actors": [
    {"name": "lobby", "kind": "machine", "stock": 1, "price": 2, "close_at": 0},
    {"name": "north", "kind": "depot", "machine": "lobby", "at": 4, "trucks": 3, "cans": 2},
    {"name": "ann", "kind": "customer", "machine": "lobby", "period": 2, "money": 12, "offer": 2},
    {"name": "south", "kind": "depot", "machine": "lobby", "at": 4, "trucks": 2, "cans": 1}
]}"#;

/// One machine closes while its customers go on, whose letters find nobody from then on.
const CLOSING: &str = r#"{"format": 1, "seed": 3, "last_tick": 14, "actors": [
    {"name": "ann", "kind": "customer", "machine": "lobby", "period": 2, "money": 20, "offer": 2},
    {"name": "lobby", "kind": "machine", "stock": 9, "price": 2, "close_at": 6},
    {"name": "rae", "kind": "random_customer", "machine": "lobby", "low": 1, "high": 3, "money": 12, "offer": 3},
    {"name": "attic", "kind": "machine", "stock": 2, "price": 3, "close_at": 0},
    {"name": "cyd", "kind": "customer", "machine": "attic", "period": 3, "money": 9, "offer": 3}
]}"#;

/// Two customers want the one can at one moment. The second is urgent.
const TWO_CUSTOMERS: &str =
    r#"{"format": 2, "seed": 7, "last_tick": 3, "urgent": ["bob"], "actors": [
    {"name": "ann", "kind": "customer", "machine": "lobby", "period": 1, "money": 9, "offer": 2},
    {"name": "bob", "kind": "customer", "machine": "lobby", "period": 1, "money": 9, "offer": 2},
    {"name": "lobby", "kind": "machine", "stock": 1, "price": 2, "close_at": 0}
]}"#;

/// Four puppets, of which the second bears one to which two others write at the close of its birth.
const BIRTH: [Puppet; 4] = [
    Puppet {
        at: 1,
        sends: 2,
        to: ActorId(5),
        says: 8,
        ..LISTENER
    },
    Puppet {
        at: 1,
        births: 1,
        ..LISTENER
    },
    LISTENER,
    Puppet {
        at: 1,
        sends: 1,
        to: ActorId(5),
        says: 9,
        ..LISTENER
    },
];

/// A creator retires at the moment of its births, of which it isn't told, and with it what it asked for.
/// Another that asked for the same tick stays, and hears of its own newborn.
const RETIRING: [Puppet; 3] = [
    Puppet {
        at: 2,
        births: 2,
        ticks: 1,
        next: 5,
        sends: 1,
        to: ActorId(3),
        retires: true,
        ..LISTENER
    },
    Puppet {
        at: 2,
        births: 1,
        ticks: 1,
        next: 5,
        sends: 2,
        to: ActorId(1),
        ..LISTENER
    },
    LISTENER,
];

const POLICIES: [Policy; 3] = [Policy::RoundRobin, Policy::ByName, Policy::LeastLoaded];

/// Puppets with room for nine, to run until tick 9.
fn puppets(alloc: Global, states: &[Puppet]) -> Result<Setup<Puppet>, Fail> {
    let mut actors = Vec::new(alloc);
    for (name, state) in ["a", "b", "c", "d"].iter().zip(states) {
        let name = Name::read(name.as_bytes()).ok_or("a name")?;
        let state = *state;
        actors.push(Start { name, state })?;
    }
    if actors.len() > 9 {
        return Err(Fail::from("more than nine"));
    }
    Ok(Setup {
        seed: 5,
        last_tick: 9,
        diasca_limit: 20,
        max_actors: 9,
        actors: Items::of(actors),
        urgent: Items::new(alloc),
    })
}

/// The setup of a scenario.
fn setup_of(alloc: Global, text: &str) -> Result<Setup<AnyActor>, Fail> {
    let Ok(scenario) = Scenario::read(alloc, text.as_bytes()) else {
        return Err(Fail::from("no scenario"));
    };
    let Scenario { setup, .. } = scenario;
    Ok(setup)
}

/// A run of a setup, by so many managers.
fn driven<A: Actor + Drop>(
    alloc: Global,
    setup: &Setup<A>,
    managers: u32,
    policy: Policy,
) -> Result<Driven, Fail> {
    if managers == 0 || 16 < managers {
        return Err(Fail::from("no count of managers"));
    }
    match drive(alloc, setup.copy(alloc)?, managers, policy, 1000)? {
        Some(run) => Ok(run),
        None => Err(Fail::from("a run that goes on")),
    }
}

fn same_kind(kind: &Kind, other: &Kind) -> bool {
    kind.name == other.name && kind.probes.as_slice() == other.probes.as_slice()
}

fn same_member(member: &Member, other: &Member) -> bool {
    member.id == other.id
        && member.name == other.name
        && same_kind(member.kind.get(), other.kind.get())
}

fn same_cast(cast: &[Member], other: &[Member]) -> bool {
    cast.len() == other.len() && cast.iter().zip(other).all(|(a, b)| same_member(a, b))
}

fn same_results(results: &Results, other: &Results) -> bool {
    results.rows.as_slice() == other.rows.as_slice()
        && same_cast(results.cast.as_slice(), other.cast.as_slice())
        && (results.ending, results.last) == (other.ending, other.last)
        && results.dead_letters == other.dead_letters
}

/// The one-thread run to this tick, and to a limit of diascas.
fn plain_until<A: Actor + Drop>(
    alloc: Global,
    setup: &Setup<A>,
    last_tick: u64,
    diasca_limit: u32,
) -> Result<Results, Fail> {
    let mut part = setup.copy(alloc)?;
    part.last_tick = part.last_tick.min(last_tick);
    part.diasca_limit = part.diasca_limit.min(diasca_limit.max(1));
    Ok(plain_run(alloc, &part)?)
}

/// Whether the first of these rows are those.
fn begin_with(rows: &[Row], first: &[Row]) -> bool {
    match rows.get(..first.len()) {
        Some(front) => front == first,
        None => false,
    }
}

/// Where a one-thread run to a moment ends there, the world stood as that run ends. The answer is
/// whether it ends there.
fn stood_so(run: &Driven, standing: &Standing, plain: &Results, rt: &impl Abort) -> bool {
    if plain.last != standing.at {
        return false;
    }
    assert_eq!(rt;
        standing.next_id as usize,
        plain.cast.len().saturating_add(1)
    );
    assert_eq!(rt; standing.dead_letters, plain.dead_letters);
    assert!(rt; begin_with(run.results.rows.as_slice(), plain.rows.as_slice()));
    true
}

/// After each moment at which a one-thread run can be made to end the world stood as that run ends.
fn each_stood_so<A: Actor + Drop>(
    rt: &(impl AllocGlobal + Abort),
    setup: &Setup<A>,
    run: &Driven,
) -> Result<(), Fail> {
    let alloc = rt.alloc();
    let mut ended = 0u32;
    for standing in &run.standings {
        let at = standing.at;
        let to_tick = plain_until(alloc, setup, at.tick, 65_535)?;
        let to_moment = plain_until(alloc, setup, at.tick, at.diasca.saturating_add(1))?;
        if stood_so(run, standing, &to_tick, rt) | stood_so(run, standing, &to_moment, rt) {
            ended = ended.saturating_add(1);
        }
    }
    assert!(rt; 0 < ended);
    Ok(())
}

/// Under each number of managers and each policy a world runs as on one thread.
fn runs_alike<A: Actor + Drop>(
    rt: &(impl AllocGlobal + Abort),
    setup: &Setup<A>,
) -> Result<Results, Fail> {
    let alloc = rt.alloc();
    let plain = plain_run(alloc, setup)?;
    let first = driven(alloc, setup, 1, Policy::RoundRobin)?;
    each_stood_so(rt, setup, &first)?;
    for &managers in &[1, 3, 16] {
        for &policy in &POLICIES {
            let run = driven(alloc, setup, managers, policy)?;
            assert!(rt; same_results(&run.results, &plain));
            assert!(rt; run.standings.as_slice() == first.standings.as_slice());
        }
    }
    Ok(plain)
}

#[test]
fn two_depots_bear_their_trucks(rt: HostRuntime) -> Result<(), Fail> {
    let plain = runs_alike(&rt, &setup_of(rt.alloc(), TWO_DEPOTS)?)?;
    assert_eq!(rt; plain.cast.len(), 9);
    Ok(())
}

#[test]
fn letters_to_a_closed_machine_are_dead(rt: HostRuntime) -> Result<(), Fail> {
    let plain = runs_alike(&rt, &setup_of(rt.alloc(), CLOSING)?)?;
    assert!(rt; 0 < plain.dead_letters);
    Ok(())
}

#[test]
fn an_urgent_customer_comes_first(rt: HostRuntime) -> Result<(), Fail> {
    runs_alike(&rt, &setup_of(rt.alloc(), TWO_CUSTOMERS)?)?;
    Ok(())
}

#[test]
fn a_newborn_reads_what_was_sent_at_its_birth(rt: HostRuntime) -> Result<(), Fail> {
    let plain = runs_alike(&rt, &puppets(rt.alloc(), &BIRTH)?)?;
    let read = plain
        .rows
        .as_slice()
        .iter()
        .filter(|row| row.actor.0 == 5)
        .count();
    assert_eq!(rt; (read, plain.dead_letters), (3, 0));
    Ok(())
}

#[test]
fn a_creator_that_retires_hears_nothing(rt: HostRuntime) -> Result<(), Fail> {
    let plain = runs_alike(&rt, &puppets(rt.alloc(), &RETIRING)?)?;
    let heard = plain.rows.as_slice().iter().any(|row| row.actor.0 == 1);
    assert_eq!(rt; (heard, plain.cast.len()), (false, 6));
    Ok(())
}
