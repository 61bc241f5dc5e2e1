use actor_trait::{Actor, Ball, Clock, Context, Event, Fuse, Letter, Outcome, Payload, fault_of};
use road_model::{Origin, Road, Vehicle};
use scenario::AnyActor;
use sim_base::{ActorId, Items, Moment};
use soda_model::{Customer, Depot, Machine, RandomCustomer, Refill};
use std::alloc::Global;
use std::test::Fail;

const MACHINE: ActorId = ActorId(3);

/// A depot that sends two refills of 6 cans at tick 9.
const DEPOT: Depot = Depot {
    machine: MACHINE,
    at: 9,
    trucks: 2,
    cans: 6,
    born: 0,
};

const REFILL: Refill = Refill {
    machine: MACHINE,
    cans: 6,
};

/// An event at tick 9 or at the opening, with so many letters that tell of births.
fn outcome_of(
    alloc: Global,
    actor: &AnyActor,
    now: Moment,
    births: u32,
) -> Result<Outcome<AnyActor>, Fail> {
    let mut letters = Vec::new(alloc);
    for serial in 0..births {
        letters.push(Letter {
            to: ActorId(5),
            from: ActorId(0),
            serial,
            payload: Payload {
                code: 0,
                a: 6,
                b: 0,
            },
        })?;
    }
    let context = Context {
        seed: 7,
        now,
        me: ActorId(5),
    };
    let event = Event {
        first: now.tick == 0,
        spontaneous: now.tick > 0 && now.diasca == 0,
        inbox: letters.as_slice(),
    };
    Ok(actor.act(alloc, &context, &event)?)
}

/// The moment of an event, the births that it is told of, how many were then born in all, the ticks
/// that it asks for, and how many it bears.
const DEPOTS: [(Moment, u32, i64, &[u64], usize); 3] = [
    (Moment { tick: 0, diasca: 0 }, 0, 0, &[9], 0),
    (Moment { tick: 9, diasca: 0 }, 0, 0, &[], 2),
    (Moment { tick: 9, diasca: 1 }, 2, 2, &[], 0),
];

/// Whether the next state is the depot with so many born.
fn is_depot(state: &AnyActor, born: i64) -> bool {
    match state {
        AnyActor::Depot(depot) => *depot == Depot { born, ..DEPOT },
        _ => false,
    }
}

fn is_refill(actor: &AnyActor) -> bool {
    match actor {
        AnyActor::Refill(refill) => *refill == REFILL,
        _ => false,
    }
}

/// Whether the depot did so, and bore only refills.
fn is_of_depot(outcome: &Outcome<AnyActor>, born: i64, ticks: &[u64], bears: usize) -> bool {
    is_depot(&outcome.state, born)
        && outcome.ticks.as_slice() == ticks
        && outcome.births.len() == bears
        && outcome.births.as_slice().iter().all(is_refill)
        && !outcome.retire
}

#[test]
fn depots_bear_refills(rt: HostRuntime) -> Result<(), Fail> {
    for &(now, told, born, ticks, bears) in &DEPOTS {
        let outcome = outcome_of(rt.alloc(), &AnyActor::Depot(DEPOT), now, told)?;
        let is_calm = fault_of(&outcome, now).is_none();
        assert!(rt;
            is_calm && is_of_depot(&outcome, born, ticks, bears),
            "{now:?}"
        );
    }
    Ok(())
}

/// An origin of four vehicles, of which two are left.
fn origin(alloc: Global) -> Result<Origin, Fail> {
    Ok(Origin {
        route: Items::of(vec![in alloc; ActorId(1), ActorId(2)]?),
        period: 9,
        count: 4,
        left: 2,
        born: 0,
    })
}

/// The moment of an event, the births that it is told of, how many are then left, the ticks that it
/// asks for, how many it bears, and how many samples it makes.
const ORIGINS: [(Moment, u32, u32, &[u64], usize, usize); 3] = [
    (Moment { tick: 0, diasca: 0 }, 0, 2, &[9], 0, 0),
    (Moment { tick: 9, diasca: 0 }, 0, 1, &[18], 1, 0),
    (Moment { tick: 9, diasca: 1 }, 1, 2, &[], 0, 1),
];

/// Whether the next state is an origin with so many left.
fn is_origin(state: &AnyActor, left: u32) -> bool {
    match state {
        AnyActor::Origin(origin) => origin.left == left,
        _ => false,
    }
}

/// Whether it is a vehicle whose route has two roads.
fn is_vehicle(actor: &AnyActor) -> bool {
    match actor {
        AnyActor::Vehicle(vehicle) => vehicle.route.len() == 2,
        _ => false,
    }
}

#[test]
fn origins_bear_vehicles(rt: HostRuntime) -> Result<(), Fail> {
    for &(now, told, left, ticks, bears, samples) in &ORIGINS {
        let actor = AnyActor::Origin(origin(rt.alloc())?);
        let outcome = outcome_of(rt.alloc(), &actor, now, told)?;
        let is_so = is_origin(&outcome.state, left)
            && outcome.ticks.as_slice() == ticks
            && outcome.births.len() == bears
            && outcome.samples.len() == samples
            && outcome.births.as_slice().iter().all(is_vehicle);
        assert!(rt; is_so, "{now:?}");
    }
    Ok(())
}

/// An actor of each kind, in the order of `KINDS`.
fn actors(alloc: Global) -> Result<Vec<AnyActor>, Fail> {
    let mut actors = Vec::new(alloc);
    actors.push(AnyActor::Clock(Clock {
        period: 1,
        count: 1,
        beats: 0,
    }))?;
    actors.push(AnyActor::Ball(Ball {
        peer: ActorId(1),
        at: 1,
        hits: 0,
        received: 0,
    }))?;
    actors.push(AnyActor::Fuse(Fuse { at: 0, code: 1 }))?;
    actors.push(AnyActor::Machine(Machine {
        stock: 0,
        price: 0,
        close_at: 0,
        coins: 0,
    }))?;
    actors.push(AnyActor::Customer(Customer {
        machine: MACHINE,
        period: 1,
        money: 0,
        offer: 0,
        cans: 0,
    }))?;
    actors.push(AnyActor::RandomCustomer(RandomCustomer {
        machine: MACHINE,
        low: 1,
        high: 1,
        money: 0,
        offer: 0,
        cans: 0,
    }))?;
    actors.push(AnyActor::Refill(REFILL))?;
    actors.push(AnyActor::Depot(DEPOT))?;
    actors.push(AnyActor::Road(Road {
        length: 1,
        room: 1,
        cars: 1,
        queue: Items::of(vec![in alloc; ActorId(7)]?),
    }))?;
    actors.push(AnyActor::Origin(origin(alloc)?))?;
    actors.push(AnyActor::Vehicle(Vehicle {
        route: Items::of(vec![in alloc; ActorId(1)]?),
        leg: 0,
        since: 0,
        waits: true,
    }))?;
    Ok(actors)
}

/// The name of each kind, and the names of its probes.
const KINDS: [(&str, &[&str]); 11] = [
    ("clock", &["beats"]),
    ("ball", &["hits"]),
    ("fuse", &[]),
    ("machine", &["stock", "coins"]),
    ("customer", &["cans", "money"]),
    ("random_customer", &["cans", "money"]),
    ("refill", &["cans"]),
    ("depot", &["trucks"]),
    ("road", &["cars", "queue"]),
    ("origin", &["sent"]),
    ("vehicle", &["leg", "trip"]),
];

/// Whether an actor is of the kind of this name, with these probes.
fn is_of(actor: &AnyActor, kind: &str, probes: &[&str]) -> bool {
    actor.kind() == kind
        && actor.probes() as usize == probes.len()
        && (0..actor.probes())
            .zip(probes)
            .all(|(number, probe)| actor.probe(number) == *probe)
}

#[test]
fn each_kind_has_its_name_and_probes(rt: HostRuntime) -> Result<(), Fail> {
    let actors = actors(rt.alloc())?;
    assert!(rt; actors.len() == KINDS.len());
    for (actor, &(kind, probes)) in actors.iter().zip(&KINDS) {
        let copy = actor.copy(rt.alloc())?;
        assert!(rt; is_of(actor, kind, probes) && copy.kind() == kind, "{kind}");
    }
    Ok(())
}
