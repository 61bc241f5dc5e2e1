//! Actors from the contents of their fields, and back.
ghost use Rattle.std.specs.Prelude.{◌≡◌, ◌≤◌, pos, IfOk};
ghost use Rattle.scenario.specs.Build.{Fits, build, kind_of_actor, show};
ghost use Rattle.scenario.specs.Table.{fields_of};
ghost use Rattle.scenario.specs.declared.table.Kind.TheVariants as kind;

use crate::AnyActor;
use crate::table::Kind;
use Content::{Actor, Number, Route};
use actor_trait::{Ball, Clock, Fuse};
use road_model::{Origin, Road};
use sim_base::{ActorId, Items};
use soda_model::{Customer, Depot, Machine, RandomCustomer, Refill};
use std::alloc::{AllocError, Global};

/// What a field holds.
#[derive(Drop)]
pub(crate) enum Content {
    /// A whole number.
    Number(u64),
    /// The actor that it names.
    Actor(ActorId),
    /// The actors that it names, in order.
    Route(Items<ActorId>),
}

/// A number as a signed one.
fn signed(n: u64) -> i64
    requires { n ≤ 1000000000 }
    ensures { result ≡ pos n }
{
    n as i64
}

/// A copy of a route in one block.
fn copied(alloc: Global, route: &[ActorId]) -> Result<Items<ActorId>, AllocError>
    ensures { IfOk result (λ copy. copy ≡ route.now) }
{
    Ok(Items::of(Vec::from_slice(alloc, route)?))
}

/// The actor of a kind at its start, of contents that fit.
pub(crate) fn build(kind: Kind, contents: &[Content], alloc: Global) -> Result<AnyActor, AllocError>
    requires { Fits 0 (fields_of kind) contents.now }
    ensures { IfOk result (λ a. a ≡ build kind contents.now) }
{
    match kind {
        Kind::Clock => Ok(clock(contents)),
        Kind::Ball => Ok(ball(contents)),
        Kind::Fuse => Ok(fuse(contents)),
        Kind::Machine => Ok(machine(contents)),
        Kind::Customer => Ok(customer(contents)),
        Kind::RandomCustomer => Ok(random_customer(contents)),
        Kind::Refill => Ok(refill(contents)),
        Kind::Depot => Ok(depot(contents)),
        Kind::Road => Ok(road(alloc, contents)),
        Kind::Origin => origin(alloc, contents),
    }
}

fn clock(contents: &[Content]) -> AnyActor
    requires { Fits 0 (fields_of kind.Clock) contents.now }
    ensures { result ≡ build kind.Clock contents.now }
{
    let [Number(period), Number(count)] = contents else {
        unreachable!()
    };
    AnyActor::Clock(Clock {
        period: *period,
        count: signed(*count),
        beats: 0,
    })
}

fn ball(contents: &[Content]) -> AnyActor
    requires { Fits 0 (fields_of kind.Ball) contents.now }
    ensures { result ≡ build kind.Ball contents.now }
{
    let [Actor(peer), Number(at), Number(hits)] = contents else {
        unreachable!()
    };
    AnyActor::Ball(Ball {
        peer: *peer,
        at: *at,
        hits: signed(*hits),
        received: 0,
    })
}

fn fuse(contents: &[Content]) -> AnyActor
    requires { Fits 0 (fields_of kind.Fuse) contents.now }
    ensures { result ≡ build kind.Fuse contents.now }
{
    let [Number(at), Number(code)] = contents else {
        unreachable!()
    };
    AnyActor::Fuse(Fuse {
        at: *at,
        code: *code as u32,
    })
}

fn machine(contents: &[Content]) -> AnyActor
    requires { Fits 0 (fields_of kind.Machine) contents.now }
    ensures { result ≡ build kind.Machine contents.now }
{
    let [Number(stock), Number(price), Number(close_at)] = contents else {
        unreachable!()
    };
    AnyActor::Machine(Machine {
        stock: signed(*stock),
        price: signed(*price),
        close_at: *close_at,
        coins: 0,
    })
}

fn customer(contents: &[Content]) -> AnyActor
    requires { Fits 0 (fields_of kind.Customer) contents.now }
    ensures { result ≡ build kind.Customer contents.now }
{
    let [Actor(machine), Number(period), Number(money), Number(offer)] = contents else {
        unreachable!()
    };
    AnyActor::Customer(Customer {
        machine: *machine,
        period: *period,
        money: signed(*money),
        offer: signed(*offer),
        cans: 0,
    })
}

fn random_customer(contents: &[Content]) -> AnyActor
    requires { Fits 0 (fields_of kind.RandomCustomer) contents.now }
    ensures { result ≡ build kind.RandomCustomer contents.now }
{
    let [
        Actor(machine),
        Number(low),
        Number(high),
        Number(money),
        Number(offer),
    ] = contents
    else {
        unreachable!()
    };
    AnyActor::RandomCustomer(RandomCustomer {
        machine: *machine,
        low: *low,
        high: *high,
        money: signed(*money),
        offer: signed(*offer),
        cans: 0,
    })
}

fn refill(contents: &[Content]) -> AnyActor
    requires { Fits 0 (fields_of kind.Refill) contents.now }
    ensures { result ≡ build kind.Refill contents.now }
{
    let [Actor(machine), Number(cans)] = contents else {
        unreachable!()
    };
    AnyActor::Refill(Refill {
        machine: *machine,
        cans: signed(*cans),
    })
}

fn depot(contents: &[Content]) -> AnyActor
    requires { Fits 0 (fields_of kind.Depot) contents.now }
    ensures { result ≡ build kind.Depot contents.now }
{
    let [Actor(machine), Number(at), Number(trucks), Number(cans)] = contents else {
        unreachable!()
    };
    AnyActor::Depot(Depot {
        machine: *machine,
        at: *at,
        trucks: *trucks as u32,
        cans: signed(*cans),
        born: 0,
    })
}

fn road(alloc: Global, contents: &[Content]) -> AnyActor
    requires { Fits 0 (fields_of kind.Road) contents.now }
    ensures { result ≡ build kind.Road contents.now }
{
    let [Number(length), Number(room)] = contents else {
        unreachable!()
    };
    AnyActor::Road(Road {
        length: signed(*length),
        room: signed(*room),
        cars: 0,
        queue: Items::new(alloc),
    })
}

fn origin(alloc: Global, contents: &[Content]) -> Result<AnyActor, AllocError>
    requires { Fits 0 (fields_of kind.Origin) contents.now }
    ensures { IfOk result (λ a. a ≡ build kind.Origin contents.now) }
{
    let [Route(route), Number(period), Number(count)] = contents else {
        unreachable!()
    };
    Ok(AnyActor::Origin(Origin {
        route: copied(alloc, route.as_slice())?,
        period: *period,
        count: *count as u32,
        left: *count as u32,
        born: 0,
    }))
}

/// What the fields of an actor hold.
pub(crate) fn show(alloc: Global, actor: &AnyActor) -> Result<Vec<Content>, AllocError>
    ensures { IfOk result (λ v. v.items ≡ show actor.now) }
{
    match actor {
        AnyActor::Clock(s) => Ok(vec![in alloc; Number(s.period), Number(s.count.unsigned_abs())]?),
        AnyActor::Ball(s) => Ok(vec![in alloc;
            Actor(s.peer),
            Number(s.at),
            Number(s.hits.unsigned_abs()),
        ]?),
        AnyActor::Fuse(s) => Ok(vec![in alloc; Number(s.at), Number(u64::from(s.code))]?),
        AnyActor::Machine(s) => Ok(vec![in alloc;
            Number(s.stock.unsigned_abs()),
            Number(s.price.unsigned_abs()),
            Number(s.close_at),
        ]?),
        AnyActor::Customer(s) => Ok(vec![in alloc;
            Actor(s.machine),
            Number(s.period),
            Number(s.money.unsigned_abs()),
            Number(s.offer.unsigned_abs()),
        ]?),
        AnyActor::RandomCustomer(s) => Ok(vec![in alloc;
            Actor(s.machine),
            Number(s.low),
            Number(s.high),
            Number(s.money.unsigned_abs()),
            Number(s.offer.unsigned_abs()),
        ]?),
        AnyActor::Refill(s) => Ok(vec![in alloc; Actor(s.machine), Number(s.cans.unsigned_abs())]?),
        AnyActor::Depot(s) => Ok(vec![in alloc;
            Actor(s.machine),
            Number(s.at),
            Number(u64::from(s.trucks)),
            Number(s.cans.unsigned_abs()),
        ]?),
        AnyActor::Road(s) => Ok(vec![in alloc;
            Number(s.length.unsigned_abs()),
            Number(s.room.unsigned_abs()),
        ]?),
        AnyActor::Origin(s) => {
            let route = copied(alloc, s.route.as_slice())?;
            Ok(vec![in alloc; Route(route), Number(s.period), Number(u64::from(s.count))]?)
        }
        AnyActor::Vehicle(_) => Ok(Vec::new(alloc)),
    }
}

/// The kind by which a scenario names an actor; it names no vehicle.
pub(crate) fn kind_of_actor(actor: &AnyActor) -> Option<Kind>
    ensures { result ≡ kind_of_actor actor.now }
{
    match actor {
        AnyActor::Clock(_) => Some(Kind::Clock),
        AnyActor::Ball(_) => Some(Kind::Ball),
        AnyActor::Fuse(_) => Some(Kind::Fuse),
        AnyActor::Machine(_) => Some(Kind::Machine),
        AnyActor::Customer(_) => Some(Kind::Customer),
        AnyActor::RandomCustomer(_) => Some(Kind::RandomCustomer),
        AnyActor::Refill(_) => Some(Kind::Refill),
        AnyActor::Depot(_) => Some(Kind::Depot),
        AnyActor::Road(_) => Some(Kind::Road),
        AnyActor::Origin(_) => Some(Kind::Origin),
        AnyActor::Vehicle(_) => None,
    }
}
