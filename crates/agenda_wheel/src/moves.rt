ghost use Rattle.std.specs.Prelude.{◌≡◌, ◌≢◌, ◌+◌, ◌<◌, ◌≤◌, ◌++◌, ℕ, true, false, Some, None, length, slice_set, count_by, if◌then◌else◌};
ghost use Rattle.agenda.specs.Dues.{add_due, due_at, without_tick, without_actor, ticks_of};
ghost use Rattle.agenda_wheel.specs.Kept.{is_free, KeepsLeasts};
ghost use Rattle.agenda_wheel.specs.Nodes.{nil, head_of};
ghost use Rattle.agenda_wheel.specs.Seen.{asks, asker};
ghost use Rattle.agenda_wheel.specs.Slots.{sorted, Distinct};
ghost use Rattle.agenda_wheel.specs.Wheel.{pair_at, pairs_of, tick_next, tick_prev, Sound};

use crate::leasts::{leave, note, renew};
use crate::levels::Leasts;
use crate::links::{Node, fill, free};
use crate::walks::{bucket_of, holds};
use agenda::Due;
use sim_base::{ActorId, Roomy, Steps};
use std::sync::ledger::Ledger;

/// A pair that is not there joins.
fn join(nodes: &mut [Node], ticks: &mut [u32], actors: &mut [u32], due: Due)
    requires sound { Sound nodes.old ticks.old actors.old }
    requires apart { Distinct (pairs_of nodes.old) }
    requires room { 0 < count_by is_free (pairs_of nodes.old) }
    requires known { due.actor.0 + 1 < length actors.old }
    requires absent { (i : ℕ) → pair_at nodes.old i ≢ Some due }
    ensures sound { Sound nodes.new ticks.new actors.new }
    ensures apart { Distinct (pairs_of nodes.new) }
    ensures pairs { sorted (pairs_of nodes.new) ≡ add_due due (sorted (pairs_of nodes.old)) }
    ensures spare { count_by is_free (pairs_of nodes.old) ≡ count_by is_free (pairs_of nodes.new) + 1 }
    ensures size { length actors.new ≡ length actors.old }
{
    let at = actors[0];
    fill(nodes, ticks, actors, at, due);
}

/// A pair joins, where it is not there. Whether it joined.
pub(crate) fn add_pair(
    nodes: &mut [Node],
    ticks: &mut [u32],
    actors: &mut [u32],
    leasts: &mut Leasts,
    due: Due,
) -> bool
    requires sound { Sound nodes.old ticks.old actors.old }
    requires apart { Distinct (pairs_of nodes.old) }
    requires leasts { KeepsLeasts (sorted (pairs_of nodes.old)) leasts.old }
    requires room { 0 < count_by is_free (pairs_of nodes.old) }
    requires known { due.actor.0 + 1 < length actors.old }
    ensures sound { Sound nodes.new ticks.new actors.new }
    ensures apart { Distinct (pairs_of nodes.new) }
    ensures leasts { KeepsLeasts (sorted (pairs_of nodes.new)) leasts.new }
    ensures pairs { sorted (pairs_of nodes.new) ≡ add_due due (sorted (pairs_of nodes.old)) }
    ensures spare { count_by is_free (pairs_of nodes.old) ≡ count_by is_free (pairs_of nodes.new) + (if result then 1 else 0) }
{
    if holds(nodes, actors, due) {
        return false;
    }
    join(nodes, ticks, actors, due);
    note(leasts, due);
    true
}

/// A used node leaves both linkings, and its pair the agenda.
fn remove(
    nodes: &mut [Node],
    ticks: &mut [u32],
    actors: &mut [u32],
    leasts: &mut Leasts,
    at: u32,
    due: Due,
)
    requires sound { Sound nodes.old ticks.old actors.old }
    requires apart { Distinct (pairs_of nodes.old) }
    requires leasts { KeepsLeasts (sorted (pairs_of nodes.old)) leasts.old }
    requires used { pair_at nodes.old at ≡ Some due }
    ensures sound { Sound nodes.new ticks.new actors.new }
    ensures apart { Distinct (pairs_of nodes.new) }
    ensures leasts { KeepsLeasts (sorted (pairs_of nodes.new)) leasts.new }
    ensures pairs { pairs_of nodes.new ≡ slice_set (pairs_of nodes.old) at None }
{
    free(nodes, ticks, actors, at, due);
    leave(nodes, ticks, leasts, due);
}

/// A used node leaves both linkings: one step.
fn unlink<L: Ledger>(
    nodes: &mut [Node],
    ticks: &mut [u32],
    actors: &mut [u32],
    leasts: &mut Leasts,
    at: u32,
    due: Due,
    steps: &mut Steps<L>,
)
    requires sound { Sound nodes.old ticks.old actors.old }
    requires apart { Distinct (pairs_of nodes.old) }
    requires leasts { KeepsLeasts (sorted (pairs_of nodes.old)) leasts.old }
    requires used { pair_at nodes.old at ≡ Some due }
    ensures sound { Sound nodes.new ticks.new actors.new }
    ensures apart { Distinct (pairs_of nodes.new) }
    ensures leasts { KeepsLeasts (sorted (pairs_of nodes.new)) leasts.new }
    ensures pairs { pairs_of nodes.new ≡ slice_set (pairs_of nodes.old) at None }
    ensures step { steps.new ≡ steps.old + 1 }
{
    remove(nodes, ticks, actors, leasts, at, due);
    steps.tick();
}

/// The pair of the first node of a list.
fn first(nodes: &[Node], actors: &[u32], list: usize) -> Option<Due>
    requires { list < length actors.now }
    ensures { result ≡ pair_at nodes.now (head_of actors.now list) }
{
    let at = actors[list] as usize;
    if at < nodes.len() {
        nodes[at].pair
    } else {
        None
    }
}

/// The pairs of an actor that has a list go. How many they were.
pub(crate) fn drop_each(
    nodes: &mut [Node],
    ticks: &mut [u32],
    actors: &mut [u32],
    leasts: &mut Leasts,
    actor: ActorId,
) -> usize
    requires sound { Sound nodes.old ticks.old actors.old }
    requires apart { Distinct (pairs_of nodes.old) }
    requires leasts { KeepsLeasts (sorted (pairs_of nodes.old)) leasts.old }
    requires known { actor.0 + 1 < length actors.old }
    ensures sound { Sound nodes.new ticks.new actors.new }
    ensures apart { Distinct (pairs_of nodes.new) }
    ensures leasts { KeepsLeasts (sorted (pairs_of nodes.new)) leasts.new }
    ensures left { sorted (pairs_of nodes.new) ≡ without_actor actor (sorted (pairs_of nodes.old)) }
    ensures free { count_by is_free (pairs_of nodes.new) ≡ count_by is_free (pairs_of nodes.old) + result }
{
    let list = actor.0 as usize + 1;
    let mut dropped = 0;
    while let Some(due) = first(nodes, actors, list) {
        let at = actors[list];
        remove(nodes, ticks, actors, leasts, at, due);
        dropped += 1;
    }
    dropped
}

/// The same, with one step for each pair.
pub(crate) fn drop_all<L: Ledger>(
    nodes: &mut [Node],
    ticks: &mut [u32],
    actors: &mut [u32],
    leasts: &mut Leasts,
    actor: ActorId,
    steps: &mut Steps<L>,
) -> usize
    requires sound { Sound nodes.old ticks.old actors.old }
    requires apart { Distinct (pairs_of nodes.old) }
    requires leasts { KeepsLeasts (sorted (pairs_of nodes.old)) leasts.old }
    requires known { actor.0 + 1 < length actors.old }
    ensures sound { Sound nodes.new ticks.new actors.new }
    ensures apart { Distinct (pairs_of nodes.new) }
    ensures leasts { KeepsLeasts (sorted (pairs_of nodes.new)) leasts.new }
    ensures left { sorted (pairs_of nodes.new) ≡ without_actor actor (sorted (pairs_of nodes.old)) }
    ensures free { count_by is_free (pairs_of nodes.new) ≡ count_by is_free (pairs_of nodes.old) + result }
    ensures count { steps.new ≡ steps.old + length (ticks_of actor (sorted (pairs_of nodes.old))) }
{
    let list = actor.0 as usize + 1;
    let mut dropped = 0;
    while let Some(due) = first(nodes, actors, list) {
        let at = actors[list];
        unlink(nodes, ticks, actors, leasts, at, due, steps);
        dropped += 1;
    }
    dropped
}

/// Where a node has a pair of the tick, its actor is appended and the node becomes free.
fn take_one(
    nodes: &mut [Node],
    ticks: &mut [u32],
    actors: &mut [u32],
    at: u32,
    tick: u64,
    into: &mut Roomy<ActorId>,
)
    requires sound { Sound nodes.old ticks.old actors.old }
    requires at_in { at < length nodes.old }
    requires room { length (asker tick (pair_at nodes.old at)) ≤ into.old.spare }
    ensures sound { Sound nodes.new ticks.new actors.new }
    ensures pairs { pairs_of nodes.new ≡ (if asks tick (pair_at nodes.old at) then slice_set
        (pairs_of nodes.old) at None else pairs_of nodes.old) }
    ensures links { (y : ℕ) → y ≢ nil → y ≢ tick_prev nodes.old at → tick_next nodes.new y ≡ tick_next nodes.old y }
    ensures same { asks tick (pair_at nodes.old at) ≡ false → nodes.new ≡ nodes.old }
    ensures taken { into.new.list ≡ into.old.list ++ asker tick (pair_at nodes.old at) }
    ensures room { into.new.spare + length (asker tick (pair_at nodes.old at)) ≡ into.old.spare }
{
    let Some(due) = nodes[at as usize].pair else {
        return;
    };
    if due.tick != tick {
        return;
    }
    into.add(due.actor);
    free(nodes, ticks, actors, at, due);
}

/// The pairs of a tick go, and their actors are appended in ascending order: a walk along its
/// bucket. How many they were.
fn take_each(
    nodes: &mut [Node],
    ticks: &mut [u32],
    actors: &mut [u32],
    tick: u64,
    into: &mut Roomy<ActorId>,
) -> usize
    requires sound { Sound nodes.old ticks.old actors.old }
    requires apart { Distinct (pairs_of nodes.old) }
    requires room { length (due_at tick (sorted (pairs_of nodes.old))) ≤ into.old.spare }
    ensures sound { Sound nodes.new ticks.new actors.new }
    ensures apart { Distinct (pairs_of nodes.new) }
    ensures left { sorted (pairs_of nodes.new) ≡ without_tick tick (sorted (pairs_of nodes.old)) }
    ensures taken { into.new.list ≡ into.old.list ++ due_at tick (sorted (pairs_of nodes.old)) }
    ensures room { into.new.spare + length (due_at tick (sorted (pairs_of nodes.old))) ≡ into.old.spare }
    ensures free { count_by is_free (pairs_of nodes.new) ≡ count_by is_free (pairs_of nodes.old) + result }
{
    let start = into.len();
    let mut at = ticks[bucket_of(tick)];
    let mut left = nodes.len();
    while (at as usize) < nodes.len() {
        let next = nodes[at as usize].by_tick.next;
        take_one(nodes, ticks, actors, at, tick, into);
        at = next;
        left -= 1;
    }
    into.sort_from(start);
    into.len() - start
}

/// The pairs of a tick go, and what is left of its bucket has its least tick. How many they were.
pub(crate) fn take_all(
    nodes: &mut [Node],
    ticks: &mut [u32],
    actors: &mut [u32],
    leasts: &mut Leasts,
    tick: u64,
    into: &mut Roomy<ActorId>,
) -> usize
    requires sound { Sound nodes.old ticks.old actors.old }
    requires apart { Distinct (pairs_of nodes.old) }
    requires leasts { KeepsLeasts (sorted (pairs_of nodes.old)) leasts.old }
    requires room { length (due_at tick (sorted (pairs_of nodes.old))) ≤ into.old.spare }
    ensures sound { Sound nodes.new ticks.new actors.new }
    ensures apart { Distinct (pairs_of nodes.new) }
    ensures leasts { KeepsLeasts (sorted (pairs_of nodes.new)) leasts.new }
    ensures left { sorted (pairs_of nodes.new) ≡ without_tick tick (sorted (pairs_of nodes.old)) }
    ensures taken { into.new.list ≡ into.old.list ++ due_at tick (sorted (pairs_of nodes.old)) }
    ensures room { into.new.spare + length (due_at tick (sorted (pairs_of nodes.old))) ≡ into.old.spare }
    ensures free { count_by is_free (pairs_of nodes.new) ≡ count_by is_free (pairs_of nodes.old) + result }
{
    let taken = take_each(nodes, ticks, actors, tick, into);
    renew(nodes, ticks, leasts, bucket_of(tick));
    taken
}
