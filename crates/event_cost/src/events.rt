ghost use Rattle.std.specs.Prelude.{◌≡◌, IfOk};
ghost use Rattle.actor_trait.specs.Seen.{seen};
ghost use Rattle.event_cost.specs.Repeats.{after_ticks, context_at};

use actor_trait::{Actor, Ball, Clock, Context, Event, Letter, Payload};
use hash_seed::letter_key;
use sim_base::{ActorId, Memory, Moment};
use soda_model::Customer;
use std::alloc::Global;

/// What is done over and over.
#[derive(Clone, Copy, Debug, PartialEq, Eq)]
pub(crate) enum Work {
    /// A clock beats.
    Clock,
    /// A ball player returns a ball.
    Ball,
    /// A customer gets a can.
    Customer,
    /// The key of a letter is made.
    Key,
}

impl Work {
    /// The work of this name.
    pub(crate) fn read(name: &str) -> Option<Work> {
        match name {
            "clock" => Some(Work::Clock),
            "ball" => Some(Work::Ball),
            "customer" => Some(Work::Customer),
            "key" => Some(Work::Key),
            _ => None,
        }
    }
}

const ME: ActorId = ActorId(1);

const OTHER: ActorId = ActorId(2);

fn context(tick: u64) -> Context
    ensures { result ≡ context_at tick }
{
    Context {
        seed: 7,
        now: Moment { tick, diasca: 1 },
        me: ME,
    }
}

/// An actor after the same event at so many ticks, from 0 on. Err is want of memory.
#[tactic(auto, unfolding(crate::specs::Repeats::after_ticks))]
fn act_often<A: Actor + Drop>(
    alloc: Global,
    actor: A,
    event: &Event<'_>,
    count: u64,
) -> Result<A, Memory>
    ensures { IfOk result (λ last. last ≡ after_ticks A.meaning actor (seen event.now.first event.now.spontaneous event.now.inbox.now) count) }
{
    let mut state = actor;
    for tick in 0..count {
        state = state.act(alloc, &context(tick), event)?.state;
    }
    Ok(state)
}

fn letter(code: u32, a: i64) -> Letter {
    Letter {
        to: ME,
        from: OTHER,
        serial: 0,
        payload: Payload { code, a, b: 0 },
    }
}

fn beats(alloc: Global, count: u64) -> Result<i64, Memory> {
    let clock = Clock {
        period: 1,
        count: 1_000_000_000,
        beats: 0,
    };
    let event = Event {
        first: false,
        spontaneous: true,
        inbox: &[],
    };
    Ok(act_often(alloc, clock, &event, count)?.beats)
}

fn hits(alloc: Global, count: u64) -> Result<i64, Memory> {
    let ball = Ball {
        peer: OTHER,
        at: 1,
        hits: 9,
        received: 0,
    };
    let inbox = [letter(1, 9)];
    let event = Event {
        first: false,
        spontaneous: false,
        inbox: &inbox,
    };
    Ok(act_often(alloc, ball, &event, count)?.received)
}

fn cans(alloc: Global, count: u64) -> Result<i64, Memory> {
    let customer = Customer {
        machine: OTHER,
        period: 1,
        money: 0,
        offer: 1,
        cans: 0,
    };
    let inbox = [letter(11, 1)];
    let event = Event {
        first: false,
        spontaneous: false,
        inbox: &inbox,
    };
    Ok(act_often(alloc, customer, &event, count)?.cans)
}

fn keys(count: u64) -> i64 {
    let mut sum = 0i64;
    for tick in 0..count {
        let key = letter_key(7, tick, 1, ME.0, OTHER.0, 0);
        sum = sum.wrapping_add(i64::from(key.0[0]));
    }
    sum
}

/// Does some work so many times. Err is want of memory.
pub(crate) fn done(alloc: Global, work: Work, count: u64) -> Result<i64, Memory> {
    match work {
        Work::Clock => beats(alloc, count),
        Work::Ball => hits(alloc, count),
        Work::Customer => cans(alloc, count),
        Work::Key => Ok(keys(count)),
    }
}
