ghost use Rattle.std.specs.Prelude.{◌<◌};

use crate::numbers::folded;
use actor_trait::Sample;
use probes::{Buffer, merge};
use sim_base::{ActorId, Memory, Moment, Row};
use std::alloc::Global;

/// How many actors act at a moment.
const ACTORS: u32 = 1_000;

/// The moment and the actor of an event.
fn event(n: u32) -> (Moment, ActorId) {
    let at = Moment {
        tick: u64::from(n / ACTORS),
        diasca: 0,
    };
    (at, ActorId(n % ACTORS))
}

fn sum_of(rows: &[Row]) -> u64 {
    rows.iter().fold(
        0,
        |sum, row| folded(sum, row.at.tick ^ u64::from(row.actor.0)),
    )
}

/// A buffer of each event whose number leaves this rest when it is divided by the number of buffers.
fn filled(alloc: Global, rest: u32, buffers: u32, count: u32) -> Result<Buffer, Memory>
    requires { 0 < buffers }
{
    let mut buffer = Buffer::new(alloc);
    for n in 0..count {
        let (at, id) = event(n);
        if n % buffers == rest && buffer.ends_before(at, id) {
            buffer.add(at, id, &[Sample { probe: 0, value: 1 }])?;
        }
    }
    Ok(buffer)
}

/// Rows that stand in so many buffers, merged so many times.
pub(crate) fn merged(alloc: Global, buffers: u32, count: u32, times: u32) -> Result<u64, Memory>
    requires { 0 < buffers }
{
    let mut all = Vec::new(alloc);
    for rest in 0..buffers {
        all.push(filled(alloc, rest, buffers, count)?)?;
    }
    let mut sum = 0;
    for _ in 0..times {
        let rows = merge(alloc, &all)?;
        sum = folded(sum, sum_of(rows.as_slice()));
    }
    Ok(sum)
}

/// The same rows, in a vector that is sorted so many times.
pub(crate) fn sorted(alloc: Global, buffers: u32, count: u32, times: u32) -> Result<u64, Memory>
    requires { 0 < buffers }
{
    let mut all = Vec::new(alloc);
    for rest in 0..buffers {
        all.extend_from_slice(filled(alloc, rest, buffers, count)?.as_slice())?;
    }
    let mut sum = 0;
    for _ in 0..times {
        let mut rows = all.as_slice().to_vec(alloc)?;
        rows.sort_by_key(|row| (row.at, row.actor))?;
        sum = folded(sum, sum_of(&rows));
    }
    Ok(sum)
}
