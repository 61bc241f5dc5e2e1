ghost use Rattle.std.specs.Prelude.{◌≡◌, IfOk, map};
ghost use Rattle.scenario.specs.AnyActors.{in_variant, of_bearing};

use actor_trait::{Actor, Ball, Bearing, Clock, Context, Event, Fuse, Outcome};
use road_model::{Origin, Road, Vehicle};
use sim_base::{Items, Memory};
use soda_model::{Customer, Depot, Machine, RandomCustomer, Refill};
use std::alloc::Global;

/// An actor of any kind.
#[derive(Drop)]
pub enum AnyActor {
    /// It beats so many times, one period apart.
    Clock(Clock),
    /// It hits a ball to its peer, and returns each that comes.
    Ball(Ball),
    /// It shows a fault of its own at its tick.
    Fuse(Fuse),
    /// It sells cans for coins.
    Machine(Machine),
    /// It buys a can each period.
    Customer(Customer),
    /// It buys a can after each of its drawn waits.
    RandomCustomer(RandomCustomer),
    /// It fills a machine at its first event, and retires.
    Refill(Refill),
    /// It bears refills at its tick.
    Depot(Depot),
    /// It lets so many cars in at a time.
    Road(Road),
    /// It bears vehicles, one period apart.
    Origin(Origin),
    /// It drives along its route, and retires. A scenario names none: they are born.
    Vehicle(Vehicle),
}

/// A kind with a variant of its own.
pub(crate) trait Variant: Drop {
    ghost use Rattle.scenario.specs.declared.any_actor.AnyActor.{AnyActor};

    /// The variant.
    ghost variant: { Self → AnyActor };

    /// The actor in its variant.
    fn put(self) -> AnyActor
        ensures { result ≡ variant self };
}

impl Variant for Clock {
    ghost use Rattle.scenario.specs.declared.any_actor.AnyActor.TheVariants as any;

    ghost variant = { any.Clock };

    fn put(self) -> AnyActor {
        AnyActor::Clock(self)
    }
}

impl Variant for Ball {
    ghost use Rattle.scenario.specs.declared.any_actor.AnyActor.TheVariants as any;

    ghost variant = { any.Ball };

    fn put(self) -> AnyActor {
        AnyActor::Ball(self)
    }
}

impl Variant for Fuse {
    ghost use Rattle.scenario.specs.declared.any_actor.AnyActor.TheVariants as any;

    ghost variant = { any.Fuse };

    fn put(self) -> AnyActor {
        AnyActor::Fuse(self)
    }
}

impl Variant for Machine {
    ghost use Rattle.scenario.specs.declared.any_actor.AnyActor.TheVariants as any;

    ghost variant = { any.Machine };

    fn put(self) -> AnyActor {
        AnyActor::Machine(self)
    }
}

impl Variant for Customer {
    ghost use Rattle.scenario.specs.declared.any_actor.AnyActor.TheVariants as any;

    ghost variant = { any.Customer };

    fn put(self) -> AnyActor {
        AnyActor::Customer(self)
    }
}

impl Variant for RandomCustomer {
    ghost use Rattle.scenario.specs.declared.any_actor.AnyActor.TheVariants as any;

    ghost variant = { any.RandomCustomer };

    fn put(self) -> AnyActor {
        AnyActor::RandomCustomer(self)
    }
}

impl Variant for Refill {
    ghost use Rattle.scenario.specs.declared.any_actor.AnyActor.TheVariants as any;

    ghost variant = { any.Refill };

    fn put(self) -> AnyActor {
        AnyActor::Refill(self)
    }
}

impl Variant for Depot {
    ghost use Rattle.scenario.specs.declared.any_actor.AnyActor.TheVariants as any;

    ghost variant = { any.Depot };

    fn put(self) -> AnyActor {
        AnyActor::Depot(self)
    }
}

impl Variant for Road {
    ghost use Rattle.scenario.specs.declared.any_actor.AnyActor.TheVariants as any;

    ghost variant = { any.Road };

    fn put(self) -> AnyActor {
        AnyActor::Road(self)
    }
}

impl Variant for Origin {
    ghost use Rattle.scenario.specs.declared.any_actor.AnyActor.TheVariants as any;

    ghost variant = { any.Origin };

    fn put(self) -> AnyActor {
        AnyActor::Origin(self)
    }
}

impl Variant for Vehicle {
    ghost use Rattle.scenario.specs.declared.any_actor.AnyActor.TheVariants as any;

    ghost variant = { any.Vehicle };

    fn put(self) -> AnyActor {
        AnyActor::Vehicle(self)
    }
}

/// Each actor in its variant, in the same order.
fn put_all<A: Variant>(alloc: Global, actors: Items<A>) -> Result<Items<AnyActor>, Memory>
    ensures { IfOk result (λ all. all ≡ map A.variant actors) }
{
    let mut all = Vec::with_capacity(alloc, actors.len())?;
    for actor in actors.into_vec() {
        all.push(actor.put())?;
    }
    Ok(Items::of(all))
}

/// The outcome with the state and each newborn in its variant.
fn put_outcome<A: Variant>(alloc: Global, outcome: Outcome<A>) -> Result<Outcome<AnyActor>, Memory>
    ensures { IfOk result (λ o. o ≡ in_variant A.variant outcome) }
{
    let Outcome {
        state,
        sends,
        ticks,
        births,
        samples,
        retire,
        fault,
    } = outcome;
    Ok(Outcome {
        state: state.put(),
        sends,
        ticks,
        births: put_all(alloc, births)?,
        samples,
        retire,
        fault,
    })
}

/// The bearing with the state and each newborn in its variant. It shows no fault.
fn put_bearing<S: Variant, N: Variant>(
    alloc: Global,
    bearing: Bearing<S, N>,
) -> Result<Outcome<AnyActor>, Memory>
    ensures { IfOk result (λ o. o ≡ of_bearing S.variant N.variant bearing) }
{
    let Bearing {
        state,
        sends,
        ticks,
        births,
        samples,
        retire,
    } = bearing;
    Ok(Outcome {
        state: state.put(),
        sends,
        ticks,
        births: put_all(alloc, births)?,
        samples,
        retire,
        fault: None,
    })
}

impl Actor for AnyActor {
    ghost use Rattle.scenario.specs.AnyActorLaws.{any_lawful};
    ghost use Rattle.scenario.specs.AnyActors.{any_meaning};

    ghost meaning = { any_meaning };

    fn act(
        &self,
        alloc: Global,
        context: &Context,
        event: &Event<'_>,
    ) -> Result<Outcome<Self>, Memory> {
        match self {
            AnyActor::Clock(s) => put_outcome(alloc, s.act(alloc, context, event)?),
            AnyActor::Ball(s) => put_outcome(alloc, s.act(alloc, context, event)?),
            AnyActor::Fuse(s) => put_outcome(alloc, s.act(alloc, context, event)?),
            AnyActor::Machine(s) => put_outcome(alloc, s.act(alloc, context, event)?),
            AnyActor::Customer(s) => put_outcome(alloc, s.act(alloc, context, event)?),
            AnyActor::RandomCustomer(s) => put_outcome(alloc, s.act(alloc, context, event)?),
            AnyActor::Refill(s) => put_outcome(alloc, s.act(alloc, context, event)?),
            AnyActor::Depot(s) => put_bearing(alloc, s.bear(alloc, context, event)?),
            AnyActor::Road(s) => put_outcome(alloc, s.act(alloc, context, event)?),
            AnyActor::Origin(s) => put_bearing(alloc, s.bear(alloc, context, event)?),
            AnyActor::Vehicle(s) => put_outcome(alloc, s.act(alloc, context, event)?),
        }
    }

    fn kind(&self) -> &str {
        match self {
            AnyActor::Clock(s) => s.kind(),
            AnyActor::Ball(s) => s.kind(),
            AnyActor::Fuse(s) => s.kind(),
            AnyActor::Machine(s) => s.kind(),
            AnyActor::Customer(s) => s.kind(),
            AnyActor::RandomCustomer(s) => s.kind(),
            AnyActor::Refill(s) => s.kind(),
            AnyActor::Depot(_) => "depot",
            AnyActor::Road(s) => s.kind(),
            AnyActor::Origin(_) => "origin",
            AnyActor::Vehicle(s) => s.kind(),
        }
    }

    fn probes(&self) -> u32 {
        match self {
            AnyActor::Clock(s) => s.probes(),
            AnyActor::Ball(s) => s.probes(),
            AnyActor::Fuse(s) => s.probes(),
            AnyActor::Machine(s) => s.probes(),
            AnyActor::Customer(s) => s.probes(),
            AnyActor::RandomCustomer(s) => s.probes(),
            AnyActor::Refill(s) => s.probes(),
            AnyActor::Depot(_) => 1,
            AnyActor::Road(s) => s.probes(),
            AnyActor::Origin(_) => 1,
            AnyActor::Vehicle(s) => s.probes(),
        }
    }

    fn probe(&self, n: u32) -> &str {
        match self {
            AnyActor::Clock(s) => s.probe(n),
            AnyActor::Ball(s) => s.probe(n),
            AnyActor::Fuse(s) => s.probe(n),
            AnyActor::Machine(s) => s.probe(n),
            AnyActor::Customer(s) => s.probe(n),
            AnyActor::RandomCustomer(s) => s.probe(n),
            AnyActor::Refill(s) => s.probe(n),
            AnyActor::Depot(_) => "trucks",
            AnyActor::Road(s) => s.probe(n),
            AnyActor::Origin(_) => "sent",
            AnyActor::Vehicle(s) => s.probe(n),
        }
    }

    fn copy(&self, alloc: Global) -> Result<Self, Memory> {
        Ok(match self {
            AnyActor::Clock(s) => AnyActor::Clock(*s),
            AnyActor::Ball(s) => AnyActor::Ball(*s),
            AnyActor::Fuse(s) => AnyActor::Fuse(*s),
            AnyActor::Machine(s) => AnyActor::Machine(*s),
            AnyActor::Customer(s) => AnyActor::Customer(*s),
            AnyActor::RandomCustomer(s) => AnyActor::RandomCustomer(*s),
            AnyActor::Refill(s) => AnyActor::Refill(*s),
            AnyActor::Depot(s) => AnyActor::Depot(*s),
            AnyActor::Road(s) => AnyActor::Road(s.copy(alloc)?),
            AnyActor::Origin(s) => AnyActor::Origin(s.copy(alloc)?),
            AnyActor::Vehicle(s) => AnyActor::Vehicle(s.copy(alloc)?),
        })
    }

    ghost lawful = { any_lawful };
}
