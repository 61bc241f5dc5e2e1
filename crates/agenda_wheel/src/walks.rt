ghost use Rattle.std.specs.Prelude.{◌≡◌, ◌≢◌, ◌+◌, ◌<◌, ◌≤◌, ◌%◌, ◌++◌, ℕ, true, false, Some, length, IfOk, OnOk};
ghost use Rattle.std.specs.Option.{option_map};
ghost use Rattle.agenda.specs.Dues.{due_at, ticks_of, least};
ghost use Rattle.agenda_wheel.specs.Kept.{in_bucket};
ghost use Rattle.agenda_wheel.specs.Nodes.{nil};
ghost use Rattle.agenda_wheel.specs.Seen.{count_in, tick_in, lesser as lesser_of};
ghost use Rattle.agenda_wheel.specs.Slots.{sorted, Distinct};
ghost use Rattle.agenda_wheel.specs.Wheel.{pair_at, pairs_of, ByTick, ByActor};

use crate::links::Node;
use agenda::Due;
use sim_base::ActorId;
use std::alloc::{AllocError, Global};

/// How many lists the used nodes are dealt to by their tick.
pub(crate) const BUCKETS: u64 = 1024;

/// The bucket of a tick.
pub(crate) fn bucket_of(tick: u64) -> usize
    ensures { result ≡ tick % 1024 }
{
    (tick % BUCKETS) as usize
}

fn same_pair(node: &Node, due: Due) -> bool
    ensures there { result ≡ true → node.now.pair ≡ Some due }
    ensures absent { result ≡ false → node.now.pair ≢ Some due }
{
    match node.pair {
        Some(pair) => pair.tick == due.tick && pair.actor.0 == due.actor.0,
        None => false,
    }
}

/// Whether the pair is there: a walk along the list of its actor.
pub(crate) fn holds(nodes: &[Node], actors: &[u32], due: Due) -> bool
    requires linked { ByActor nodes.now actors.now }
    requires small { length nodes.now ≤ nil }
    requires known { due.actor.0 + 1 < length actors.now }
    ensures there { result ≡ true → (i : ℕ) × (pair_at nodes.now i ≡ Some due) }
    ensures absent { result ≡ false → (i : ℕ) → pair_at nodes.now i ≢ Some due }
{
    let mut at = actors[due.actor.0 as usize + 1];
    let mut steps: usize = 0;
    while (at as usize) < nodes.len() {
        if same_pair(&nodes[at as usize], due) {
            return true;
        }
        at = nodes[at as usize].by_actor.next;
        steps += 1;
    }
    false
}

fn count_of(node: &Node, tick: u64) -> usize
    ensures { result ≡ count_in tick node.now.pair }
{
    match node.pair {
        Some(due) if due.tick == tick => 1,
        _ => 0,
    }
}

/// How many nodes have a pair of the tick: a walk along its bucket. As in each walk here, `left` only
/// bounds it: a list is no longer than the vector.
pub(crate) fn count_at(nodes: &[Node], ticks: &[u32], tick: u64) -> usize
    requires linked { ByTick nodes.now ticks.now }
    requires small { length nodes.now ≤ nil }
    requires wheel { length ticks.now ≡ 1024 }
    requires apart { Distinct (pairs_of nodes.now) }
    ensures { result ≡ length (due_at tick (sorted (pairs_of nodes.now))) }
{
    let mut at = ticks[bucket_of(tick)];
    let mut left = nodes.len();
    let mut count = 0;
    while (at as usize) < nodes.len() {
        count += count_of(&nodes[at as usize], tick);
        at = nodes[at as usize].by_tick.next;
        left -= 1;
    }
    count
}

/// The lesser of two numbers, where there are two.
pub(crate) fn lesser(one: Option<u64>, other: Option<u64>) -> Option<u64>
    ensures { result ≡ lesser_of one other }
{
    match (one, other) {
        (Some(tick), Some(than)) => Some(tick.min(than)),
        (Some(tick), None) => Some(tick),
        (None, other) => other,
    }
}

fn tick_of(node: &Node) -> Option<u64>
    ensures { result ≡ option_map (λ d. d.tick) node.now.pair }
{
    match node.pair {
        Some(due) => Some(due.tick),
        None => None,
    }
}

/// The least tick of a bucket: a walk along it.
pub(crate) fn least_in(nodes: &[Node], ticks: &[u32], bucket: usize) -> Option<u64>
    requires linked { ByTick nodes.now ticks.now }
    requires small { length nodes.now ≤ nil }
    requires wheel { length ticks.now ≡ 1024 }
    requires apart { Distinct (pairs_of nodes.now) }
    requires inside { bucket < 1024 }
    ensures { result ≡ least (in_bucket bucket (sorted (pairs_of nodes.now))) }
{
    let mut at = ticks[bucket];
    let mut left = nodes.len();
    let mut least = None;
    while (at as usize) < nodes.len() {
        least = lesser(least, tick_of(&nodes[at as usize]));
        at = nodes[at as usize].by_tick.next;
        left -= 1;
    }
    least
}

fn push_tick(ticks: &mut Vec<u64>, node: &Node) -> Result<(), AllocError>
    ensures { OnOk result (ticks.new.items ≡ ticks.old.items ++ tick_in node.now.pair) }
{
    match node.pair {
        Some(due) => {
            ticks.push(due.tick)?;
            Ok(())
        }
        None => Ok(()),
    }
}

/// The ticks of an actor that has a list, ascending: a walk along it.
pub(crate) fn ticks_from(
    nodes: &[Node],
    actors: &[u32],
    alloc: Global,
    actor: ActorId,
) -> Result<Vec<u64>, AllocError>
    requires linked { ByActor nodes.now actors.now }
    requires small { length nodes.now ≤ nil }
    requires apart { Distinct (pairs_of nodes.now) }
    requires known { actor.0 + 1 < length actors.now }
    ensures { IfOk result (λ ticks. ticks.items ≡ ticks_of actor (sorted (pairs_of nodes.now))) }
{
    let mut ticks = Vec::new(alloc);
    let mut at = actors[actor.0 as usize + 1];
    let mut left = nodes.len();
    while (at as usize) < nodes.len() {
        push_tick(&mut ticks, &nodes[at as usize])?;
        at = nodes[at as usize].by_actor.next;
        left -= 1;
    }
    ticks.sort_unstable();
    Ok(ticks)
}
