//! Events of an actor, each with what comes of it.

use actor_trait::{Actor, Bearing, Context, Event, Letter, Parcel, Payload, Sample};
use sim_base::{ActorId, Items, Moment};
use std::alloc::{AllocError, Global};
use std::process::Abort;
use std::test::Fail;

/// The actor that acts.
const ME: ActorId = ActorId(5);

/// Why it acts.
#[derive(Clone, Copy)]
pub enum Why {
    First,
    Tick,
    FirstAndTick,
    Letters,
}

/// A letter to the actor: its sender, its code and its first number.
pub type Told = (u32, u32, i64);

/// A letter from the actor: to whom, its code and its two numbers.
pub type Sent = (u32, u32, i64, i64);

/// A sample: its probe and its value.
pub type Sampled = (u32, i64);

/// An event, at a tick, with its inbox, and what comes of it: letters, ticks, samples, and whether
/// the actor retires.
pub type Step<'a> = (
    Why,
    u64,
    &'a [Told],
    &'a [Sent],
    &'a [u64],
    &'a [Sampled],
    bool,
);

/// An event that bears actors: why and when it comes, with its inbox, and what comes of it: how many
/// are born, ticks and samples.
pub type Birth<'a> = (Why, u64, &'a [Told], usize, &'a [u64], &'a [Sampled]);

/// Diasca 0 of a tick.
pub fn at(tick: u64) -> Context {
    Context {
        seed: 7,
        now: Moment { tick, diasca: 0 },
        me: ME,
    }
}

pub fn event(why: Why, inbox: &[Letter]) -> Event<'_> {
    Event {
        first: matches!(why, Why::First | Why::FirstAndTick),
        spontaneous: matches!(why, Why::Tick | Why::FirstAndTick),
        inbox,
    }
}

pub fn letters(alloc: Global, inbox: &[Told]) -> Result<Vec<Letter>, AllocError> {
    let mut letters = Vec::new(alloc);
    for (from, code, a) in inbox {
        letters.push(Letter {
            to: ME,
            from: ActorId(*from),
            serial: 0,
            payload: Payload {
                code: *code,
                a: *a,
                b: 0,
            },
        })?;
    }
    Ok(letters)
}

/// The kind and its probes have these names.
pub fn has_names<R: Abort, A: Actor>(rt: &R, actor: &A, kind: &str, probes: &[&str]) {
    assert_eq!(rt; actor.kind(), kind);
    assert_eq!(rt; actor.probes() as usize, probes.len());
    for n in 0..actor.probes() {
        assert_eq!(rt; Some(actor.probe(n)), probes.get(n as usize).copied());
    }
}

/// Each step comes to what it says. The state after the last.
pub fn each_comes_to<R: Abort + AllocGlobal, A: Actor + Drop>(
    rt: &R,
    actor: A,
    steps: &[Step<'_>],
) -> Result<A, Fail> {
    let mut actor = actor;
    for step in steps {
        actor = comes_to(rt, &actor.copy(rt.alloc())?, *step)?;
    }
    Ok(actor)
}

fn sent(alloc: Global, parcels: &[Parcel]) -> Result<Vec<Sent>, AllocError> {
    let mut sent = Vec::new(alloc);
    for parcel in parcels {
        let Payload { code, a, b } = parcel.payload;
        sent.push((parcel.to.0, code, a, b))?;
    }
    Ok(sent)
}

fn sampled(alloc: Global, samples: &[Sample]) -> Result<Vec<Sampled>, AllocError> {
    let mut sampled = Vec::new(alloc);
    for sample in samples {
        sampled.push((sample.probe, sample.value))?;
    }
    Ok(sampled)
}

/// The step comes to what it says; nobody is born, and no fault is shown. The state after it.
pub fn comes_to<R: Abort + AllocGlobal, A: Actor + Drop>(
    rt: &R,
    actor: &A,
    step: Step<'_>,
) -> Result<A, Fail> {
    let (why, tick, inbox, sends, ticks, samples, retires) = step;
    let inbox = letters(rt.alloc(), inbox)?;
    let outcome = actor.act(rt.alloc(), &at(tick), &event(why, inbox.as_slice()))?;
    let sent = sent(rt.alloc(), outcome.sends.as_slice())?;
    let sampled = sampled(rt.alloc(), outcome.samples.as_slice())?;
    let came = (
        sent.as_slice(),
        outcome.ticks.as_slice(),
        sampled.as_slice(),
    );
    assert_eq!(rt; came, (sends, ticks, samples), "at {tick}");
    assert!(rt; outcome.births.is_empty() && outcome.fault.is_none());
    assert_eq!(rt; outcome.retire, retires);
    Ok(outcome.state)
}

/// The bearing is what the birth says; nothing is sent, and the actor stays. Its state, and those to be
/// born.
pub fn bears<R: Abort + AllocGlobal, S: Drop, N: Drop>(
    rt: &R,
    bearing: Bearing<S, N>,
    birth: Birth<'_>,
) -> Result<(S, Items<N>), Fail> {
    let (_, tick, _, births, ticks, samples) = birth;
    let sampled = sampled(rt.alloc(), bearing.samples.as_slice())?;
    let came = (
        bearing.births.len(),
        bearing.ticks.as_slice(),
        sampled.as_slice(),
    );
    assert_eq!(rt; came, (births, ticks, samples), "at {tick}");
    assert!(rt; bearing.sends.is_empty() && !bearing.retire);
    Ok((bearing.state, bearing.births))
}
