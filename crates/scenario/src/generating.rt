//! The generated scenarios: groups of ten actors, of which each leads to the next and the last to the
//! first.
ghost use Rattle.std.specs.Prelude.{◌≡◌, ◌<◌, ◌≤◌, [], ◌∷◌, ◌++◌, length, take, IfOk, OnOk};
ghost use Rattle.scenario.specs.Generated.{clock, customer, depot, first_groups, generated, group, machine, member, named, numbered, origin, random_customer, road};

use crate::{AnyActor, RuleText, Scenario};
use actor_trait::Clock;
use itoa::Buffer;
use result_store::{Rules, RulesFault};
use road_model::{Origin, Road};
use sim_base::{ActorId, Items, Memory, Name};
use sim_model::{Setup, Start};
use soda_model::{Customer, Depot, Machine, RandomCustomer};
use std::alloc::Global;

/// How many actors are in a group.
const GROUP: u32 = 10;

/// The most bytes of a name.
const MOST_BYTES: usize = 32;

/// A letter, `_`, and the number of a group, with how many bytes they are.
fn spelt(letter: u8, g: u32) -> ([u8; MOST_BYTES], usize)
    ensures text { take result.1 result.0 ≡ numbered letter g }
    ensures few { result.1 ≤ length result.0 }
{
    let mut buffer = Buffer::new();
    let digits = buffer.format(g).as_bytes();
    let end = 2 + digits.len();
    let mut text = [0; MOST_BYTES];
    text[0] = letter;
    text[1] = b'_';
    text[2..end].copy_from_slice(digits);
    (text, end)
}

/// The same as a name.
fn numbered(letter: u8, g: u32) -> Name
    requires low { 97 ≤ letter }
    requires high { letter ≤ 122 }
    ensures { result ≡ numbered letter g }
{
    let (text, end) = spelt(letter, g);
    match Name::read(&text[..end]) {
        Some(name) => name,
        None => unreachable!(),
    }
}

/// The actor at a place in a group, from 1.
fn member(g: u32, place: u32) -> ActorId
    requires group { g < 10000 }
    requires place { place ≤ 10 }
    ensures { result ≡ member g place }
{
    ActorId(GROUP * g + place)
}

fn machine() -> AnyActor
    ensures { result ≡ machine }
{
    AnyActor::Machine(Machine {
        stock: 20,
        price: 2,
        close_at: 0,
        coins: 0,
    })
}

fn road(alloc: Global, length: u32, room: u32) -> AnyActor
    requires some { 1 ≤ length }
    requires short { length ≤ 7 }
    requires one { 1 ≤ room }
    requires few { room ≤ 2 }
    ensures { result ≡ road length room }
{
    AnyActor::Road(Road {
        length: i64::from(length),
        room: i64::from(room),
        cars: 0,
        queue: Items::new(alloc),
    })
}

fn origin(alloc: Global, first: ActorId, second: ActorId, last: ActorId) -> Result<AnyActor, Memory>
    ensures { IfOk result (λ a. a ≡ origin (first ∷ second ∷ last ∷ [])) }
{
    Ok(AnyActor::Origin(Origin {
        route: Items::of(vec![in alloc; first, second, last]?),
        period: 7,
        count: 5,
        left: 5,
        born: 0,
    }))
}

fn customer(machine: ActorId, offer: u32) -> AnyActor
    requires { offer ≤ 5 }
    ensures { result ≡ customer machine offer }
{
    AnyActor::Customer(Customer {
        machine,
        period: 10,
        money: 100,
        offer: i64::from(offer),
        cans: 0,
    })
}

fn random_customer(machine: ActorId, low: u64, high: u64, offer: u32) -> AnyActor
    requires some { 1 ≤ low }
    requires ordered { low ≤ high }
    requires short { high ≤ 20 }
    requires offer { offer ≤ 5 }
    ensures { result ≡ random_customer machine low high offer }
{
    AnyActor::RandomCustomer(RandomCustomer {
        machine,
        low,
        high,
        money: 60,
        offer: i64::from(offer),
        cans: 0,
    })
}

fn depot(machine: ActorId) -> AnyActor
    ensures { result ≡ depot machine }
{
    AnyActor::Depot(Depot {
        machine,
        at: 40,
        trucks: 2,
        cans: 10,
        born: 0,
    })
}

fn clock() -> AnyActor
    ensures { result ≡ clock }
{
    AnyActor::Clock(Clock {
        period: 25,
        count: 4,
        beats: 0,
    })
}

fn named(letter: u8, g: u32, state: AnyActor) -> Start<AnyActor>
    requires low { 97 ≤ letter }
    requires high { letter ≤ 122 }
    ensures { result ≡ named letter g state }
{
    Start {
        name: numbered(letter, g),
        state,
    }
}

/// The ten actors of a group, which leads to the group `h`.
fn group(alloc: Global, g: u32, h: u32) -> Result<Vec<Start<AnyActor>>, Memory>
    requires group { g < 10000 }
    requires next { h < 10000 }
    ensures { IfOk result (λ v. v.items ≡ group g h) }
{
    let route = origin(alloc, member(g, 2), member(g, 3), member(h, 2))?;
    Ok(vec![in alloc;
        named(b'm', g, machine()),
        named(b'a', g, road(alloc, 3 + g % 5, 2)),
        named(b'b', g, road(alloc, 2, 1)),
        named(b'o', g, route),
        named(b'c', g, customer(member(g, 1), 2)),
        named(b'd', g, customer(member(h, 1), 3)),
        named(b'e', g, random_customer(member(g, 1), 1, 20, 2)),
        named(b'f', g, random_customer(member(h, 1), 5, 15, 5)),
        named(b'w', g, depot(member(g, 1))),
        named(b'k', g, clock()),
    ]?)
}

fn add_all(starts: &mut Vec<Start<AnyActor>>, more: Vec<Start<AnyActor>>) -> Result<(), Memory>
    ensures { OnOk result (starts.new.items ≡ starts.old.items ++ more.items) }
{
    for start in more {
        starts.push(start)?;
    }
    Ok(())
}

fn groups(alloc: Global, n: u32) -> Result<Items<Start<AnyActor>>, Memory>
    requires some { 1 ≤ n }
    requires most { n ≤ 10000 }
    ensures { IfOk result (λ starts. starts ≡ first_groups n n) }
{
    let mut starts = Vec::with_capacity(alloc, (GROUP * n) as usize)?;
    for g in 0..n {
        add_all(&mut starts, group(alloc, g, (g + 1) % n)?)?;
    }
    Ok(Items::of(starts))
}

fn texts(alloc: Global) -> Result<Items<RuleText>, Memory>
    ensures { IfOk result (λ texts. texts ≡ (generated 1).texts) }
{
    let trips = Items::of(b"+*.trip".to_vec(alloc)?);
    let stocks = Items::of(b"+*.stock".to_vec(alloc)?);
    let cars = Items::of(b"+*.cars".to_vec(alloc)?);
    Ok(Items::of(vec![in alloc; trips, stocks, cars]?))
}

/// The rules of those texts.
fn rules(alloc: Global, texts: &[RuleText]) -> Result<Rules, Memory>
    requires { texts.now ≡ (generated 1).texts }
    ensures { IfOk result (λ rules. rules ≡ (generated 1).rules) }
{
    match Rules::read(alloc, texts) {
        Ok(rules) => Ok(rules),
        Err(RulesFault::BadRule(_)) => unreachable!(),
        Err(RulesFault::Memory) => Err(Memory),
    }
}

impl Scenario {
    /// A large scenario of format 1: `n` groups of ten actors each, from 1 to 10,000 of them, with the
    /// seed `n`. It reads no text. Err is want of memory.
    pub fn generate(alloc: Global, n: u32) -> Result<Scenario, Memory>
        requires some { 1 ≤ n }
        requires most { n ≤ 10000 }
        ensures { IfOk result (λ scenario. scenario ≡ generated n) }
    {
        let texts = texts(alloc)?;
        let rules = rules(alloc, texts.as_slice())?;
        let actors = groups(alloc, n)?;
        Ok(Scenario {
            format: 1,
            setup: Setup {
                seed: u64::from(n),
                last_tick: 100,
                diasca_limit: 1000,
                max_actors: 200_000,
                actors,
                urgent: Items::new(alloc),
            },
            rules,
            texts,
        })
    }
}
