ghost use Rattle.std.specs.Prelude.{◌≡◌, ◌+◌, ◌<◌, ◌≤◌, length};

use crate::numbers::{Numbers, folded};
use agenda::Agenda;
use sim_base::{ActorId, Memory, Roomy};
use std::alloc::Global;
use std::collections::BTreeSet;

/// The sum of those who act at a tick.
fn sum_of(sum: u64, tick: u64, ids: &[ActorId]) -> u64 {
    ids.iter()
        .fold(folded(sum, tick), |sum, id| folded(sum, u64::from(id.0)))
}

/// Each of so many actors asks for a tick.
fn ask_first<A: Agenda>(agenda: &mut A, numbers: &mut Numbers, actors: u32, ahead: u32)
    requires some { 0 < ahead }
    requires room { actors ≤ A.spare agenda.old }
    requires known { actors ≤ A.top agenda.old }
{
    for id in 0..actors {
        agenda.add(u64::from(numbers.below(ahead)), ActorId(id));
    }
}

/// Those who acted at a tick ask for a later one.
fn ask_again<A: Agenda>(
    agenda: &mut A,
    numbers: &mut Numbers,
    ids: &[ActorId],
    tick: u64,
    ahead: u32,
    actors: u32,
)
    requires some { 0 < ahead }
    requires room { length ids.now ≤ A.spare agenda.old }
    requires known { actors ≤ A.top agenda.old }
{
    for id in ids {
        let next = tick.saturating_add(1 + u64::from(numbers.below(ahead)));
        agenda.add(next, ActorId(id.0.min(actors)));
    }
}

/// So many times somebody acts at the tick that it asked for, and asks for one of the next.
pub(crate) fn acted<A: Agenda + Drop>(
    alloc: Global,
    actors: u32,
    ahead: u32,
    moves: u64,
) -> Result<u64, Memory>
    requires { 0 < ahead }
{
    let mut agenda = A::new(alloc)?;
    let mut numbers = Numbers::new();
    let mut sum = 0;
    agenda.reserve(actors as usize, ActorId(actors))?;
    ask_first(&mut agenda, &mut numbers, actors, ahead);
    let mut left = moves;
    while left > 0 {
        let Some(tick) = agenda.least() else {
            return Ok(sum);
        };
        let mut ids = Roomy::new(alloc);
        ids.reserve(agenda.due(tick))?;
        agenda.take_due(tick, &mut ids);
        agenda.reserve(ids.len(), ActorId(actors))?;
        ask_again(
            &mut agenda,
            &mut numbers,
            ids.as_slice(),
            tick,
            ahead,
            actors,
        );
        sum = sum_of(sum, tick, ids.as_slice());
        left = left.saturating_sub(ids.len().max(1) as u64);
    }
    Ok(sum)
}

/// Takes the actors of the least tick out of a set of pairs.
fn take_least(
    set: &mut BTreeSet<(u64, u32)>,
    tick: u64,
    ids: &mut Roomy<ActorId>,
) -> Result<(), Memory> {
    for _ in 0..set.len() {
        match set.first() {
            Some((due, id)) if *due == tick => {
                ids.reserve(1)?;
                ids.add(ActorId(*id));
            }
            _ => return Ok(()),
        }
        set.pop_first();
    }
    Ok(())
}

/// The same with a set of pairs.
pub(crate) fn acted_in_tree(
    alloc: Global,
    actors: u32,
    ahead: u32,
    moves: u64,
) -> Result<u64, Memory>
    requires { 0 < ahead }
{
    let mut set = BTreeSet::new(alloc);
    let mut numbers = Numbers::new();
    let mut sum = 0;
    for id in 0..actors {
        set.insert((u64::from(numbers.below(ahead)), id))?;
    }
    let mut left = moves;
    while left > 0 {
        let tick = match set.first() {
            Some((tick, _)) => *tick,
            None => return Ok(sum),
        };
        let mut ids = Roomy::new(alloc);
        take_least(&mut set, tick, &mut ids)?;
        for id in ids.as_slice() {
            let next = tick.saturating_add(1 + u64::from(numbers.below(ahead)));
            set.insert((next, id.0))?;
        }
        sum = sum_of(sum, tick, ids.as_slice());
        left = left.saturating_sub(ids.len().max(1) as u64);
    }
    Ok(sum)
}
