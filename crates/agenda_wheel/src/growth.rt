ghost use Rattle.std.specs.Prelude.{◌≡◌, ◌+◌, ◌-◌, ◌<◌, ◌≤◌, ◌++◌, length, count_by, vec_len, vec_capacity, replicate, IfOk, OnOk, OnErr};
ghost use Rattle.agenda_wheel.specs.Kept.{is_free};
ghost use Rattle.agenda_wheel.specs.Nodes.{nil};
ghost use Rattle.agenda_wheel.specs.Slots.{sorted, Distinct};
ghost use Rattle.agenda_wheel.specs.Wheel.{pairs_of, Sound};

use crate::links::{Link, NIL, Node, Side, put};
use std::alloc::{AllocError, Global};

/// One free node more, for which the vector has room.
fn grow(nodes: &mut Vec<Node>, _ticks: &[u32], actors: &mut [u32])
    requires sound { Sound nodes.old.items _ticks.now actors.old }
    requires apart { Distinct (pairs_of nodes.old.items) }
    requires lists { 0 < length actors.old }
    requires small { vec_len nodes.old < nil }
    requires room { vec_len nodes.old < vec_capacity nodes.old }
    ensures sound { Sound nodes.new.items _ticks.now actors.new }
    ensures apart { Distinct (pairs_of nodes.new.items) }
    ensures pairs { sorted (pairs_of nodes.new.items) ≡ sorted (pairs_of nodes.old.items) }
    ensures free { count_by is_free (pairs_of nodes.new.items) ≡ count_by is_free (pairs_of nodes.old.items) + 1 }
    ensures len { vec_len nodes.new ≡ vec_len nodes.old + 1 }
    ensures capacity { vec_capacity nodes.new ≡ vec_capacity nodes.old }
{
    let at = nodes.len() as u32;
    let alone = Link {
        next: NIL,
        prev: NIL,
    };
    nodes.push_reserved(Node {
        pair: None,
        by_tick: alone,
        by_actor: alone,
    });
    put(nodes.as_mut_slice(), actors, Side::Actor, at, 0);
}

/// So many free nodes more, for which the vector has room.
pub(crate) fn grow_by(nodes: &mut Vec<Node>, ticks: &[u32], actors: &mut [u32], more: usize)
    requires sound { Sound nodes.old.items ticks.now actors.old }
    requires apart { Distinct (pairs_of nodes.old.items) }
    requires lists { 0 < length actors.old }
    requires small { vec_len nodes.old + more ≤ nil }
    requires room { vec_len nodes.old + more ≤ vec_capacity nodes.old }
    ensures sound { Sound nodes.new.items ticks.now actors.new }
    ensures apart { Distinct (pairs_of nodes.new.items) }
    ensures pairs { sorted (pairs_of nodes.new.items) ≡ sorted (pairs_of nodes.old.items) }
    ensures free { count_by is_free (pairs_of nodes.new.items) ≡ count_by is_free (pairs_of nodes.old.items) + more }
{
    for grown in 0..more {
        grow(nodes, ticks, actors);
    }
}

/// A vector of the same value.
pub(crate) fn filled<T: Copy>(alloc: Global, value: T, count: usize) -> Result<Vec<T>, AllocError>
    ensures { IfOk result (λ all. all.items ≡ replicate count value) }
{
    let mut all = Vec::new(alloc);
    all.resize(count, value)?;
    Ok(all)
}

/// Room for so many nodes more, and so many lists, the new ones empty.
pub(crate) fn make_room(
    nodes: &mut Vec<Node>,
    actors: &mut Vec<u32>,
    more: usize,
    lists: usize,
) -> Result<(), AllocError>
    ensures nodes { nodes.new.items ≡ nodes.old.items }
    ensures len { vec_len nodes.new ≡ vec_len nodes.old }
    ensures room { OnOk result (vec_len nodes.new + more ≤ vec_capacity nodes.new) }
    ensures actors { OnOk result (actors.new.items ≡ actors.old.items ++ replicate (lists - vec_len actors.old) nil) }
    ensures same { OnErr result (actors.new.items ≡ actors.old.items) }
{
    nodes.reserve(more)?;
    let lists = lists.max(actors.len());
    actors.resize(lists, NIL)?;
    Ok(())
}
