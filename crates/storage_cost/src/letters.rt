ghost use Rattle.std.specs.Prelude.{◌≡◌, ◌+◌, ◌<◌, ◌≤◌};
ghost use Rattle.inbox_store.specs.Letters.{top_of};

use crate::numbers::{Numbers, folded};
use actor_trait::{Letter, Payload};
use inbox_store::LetterStore;
use sim_base::{ActorId, Memory, Roomy};
use std::alloc::Global;

fn letter(to: u32, serial: u32) -> Letter {
    Letter {
        to: ActorId(to),
        from: ActorId(1),
        serial,
        payload: Payload {
            code: 1,
            a: 0,
            b: 0,
        },
    }
}

fn sum_of(letters: &[Letter]) -> u64 {
    letters
        .iter()
        .fold(0, |sum, letter| folded(sum, u64::from(letter.serial)))
}

fn put_all(store: &mut LetterStore, numbers: &mut Numbers, actors: u32, count: u32)
    requires some { 0 < actors }
    requires room { count ≤ store.old.spare }
    requires known { actors ≤ top_of store.old }
{
    for serial in 0..count {
        let mut one = letter(0, serial);
        one.to = ActorId(numbers.below(actors));
        store.put(one);
    }
}

fn drain_all(store: &mut LetterStore, into: &mut Roomy<Letter>, actors: u32) -> Result<(), Memory> {
    for id in 0..actors {
        into.reserve(store.count_of(ActorId(id)))?;
        store.drain_of(ActorId(id), into);
    }
    Ok(())
}

/// Letters of so many moments, each through the same store.
pub(crate) fn stored(alloc: Global, actors: u32, count: u32, times: u32) -> Result<u64, Memory>
    requires { 0 < actors }
{
    let mut store = LetterStore::new(alloc);
    let mut numbers = Numbers::new();
    let mut sum = 0;
    for _ in 0..times {
        let mut into = Roomy::new(alloc);
        into.reserve(count as usize)?;
        store.reserve(count as usize, ActorId(actors))?;
        put_all(&mut store, &mut numbers, actors, count);
        drain_all(&mut store, &mut into, actors)?;
        sum = folded(sum, sum_of(into.as_slice()));
    }
    Ok(sum)
}

/// The same letters, each moment in a vector that is sorted by recipient.
pub(crate) fn sorted(alloc: Global, actors: u32, count: u32, times: u32) -> Result<u64, Memory>
    requires { 0 < actors }
{
    let mut numbers = Numbers::new();
    let mut sum = 0;
    for _ in 0..times {
        let mut letters = Vec::with_capacity(alloc, count as usize)?;
        for serial in 0..count {
            letters.push(letter(numbers.below(actors), serial))?;
        }
        letters.sort_by_key(|letter| letter.to)?;
        sum = folded(sum, sum_of(&letters));
    }
    Ok(sum)
}
