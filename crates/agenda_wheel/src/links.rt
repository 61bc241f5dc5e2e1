ghost use Rattle.std.specs.Prelude.{◌≡◌, ◌≢◌, ◌+◌, ◌<◌, ℕ, Some, None, map, length, slice_index_or, slice_set};
ghost use Rattle.agenda_wheel.specs.Nodes.{nil, no_node, link_of, put_next, put_prev, cut_nodes, cut_heads, put_nodes, put_heads};
ghost use Rattle.agenda_wheel.specs.Wheel.{pair_at, pairs_of, bucket, tick_next, tick_prev, Sound, freed_nodes, freed_ticks, freed_actors};
ghost use Rattle.agenda_wheel.specs.Wheel.{used_nodes, used_actors};

use agenda::Due;

/// The number of no node.
pub(crate) const NIL: u32 = u32::MAX;

/// The neighbours of a node in a list.
#[derive(Clone, Copy)]
pub(crate) struct Link {
    pub(crate) next: u32,
    pub(crate) prev: u32,
}

/// A pair, if the node is used, and its places in the list of its bucket and in that of its actor.
/// A free node is in list 0 of the actors'.
#[derive(Clone, Copy)]
pub(crate) struct Node {
    pub(crate) pair: Option<Due>,
    pub(crate) by_tick: Link,
    pub(crate) by_actor: Link,
}

/// Which of the two linkings.
#[derive(Clone, Copy)]
pub(crate) enum Side {
    Tick,
    Actor,
}

fn side_link(node: &Node, side: Side) -> Link
    ensures { result ≡ link_of side node.now }
{
    match side {
        Side::Tick => node.by_tick,
        Side::Actor => node.by_actor,
    }
}

// At no node it does nothing, so no neighbour needs a case.
fn set_next(nodes: &mut [Node], side: Side, at: u32, to: u32)
    ensures { nodes.new ≡ put_next side nodes.old at to }
{
    let at = at as usize;
    if at < nodes.len() {
        match side {
            Side::Tick => nodes[at].by_tick.next = to,
            Side::Actor => nodes[at].by_actor.next = to,
        }
    }
}

fn set_prev(nodes: &mut [Node], side: Side, at: u32, to: u32)
    ensures { nodes.new ≡ put_prev side nodes.old at to }
{
    let at = at as usize;
    if at < nodes.len() {
        match side {
            Side::Tick => nodes[at].by_tick.prev = to,
            Side::Actor => nodes[at].by_actor.prev = to,
        }
    }
}

/// The node leaves its list.
pub(crate) fn cut(nodes: &mut [Node], heads: &mut [u32], side: Side, at: u32, list: usize)
    requires at_in { at < length nodes.old }
    requires list_in { list < length heads.old }
    ensures nodes { nodes.new ≡ cut_nodes side nodes.old at }
    ensures heads { heads.new ≡ cut_heads side nodes.old heads.old at list }
{
    let Link { next, prev } = side_link(&nodes[at as usize], side);
    if prev == NIL {
        heads[list] = next;
    }
    set_next(nodes, side, prev, next);
    set_prev(nodes, side, next, prev);
}

/// The node becomes the first of a list.
pub(crate) fn put(nodes: &mut [Node], heads: &mut [u32], side: Side, at: u32, list: usize)
    requires list_in { list < length heads.old }
    ensures nodes { nodes.new ≡ put_nodes side nodes.old heads.old at list }
    ensures heads { heads.new ≡ put_heads heads.old at list }
{
    let head = heads[list];
    set_next(nodes, side, at, head);
    set_prev(nodes, side, at, NIL);
    set_prev(nodes, side, head, at);
    heads[list] = at;
}

// The node has no pair.
fn set_free(nodes: &mut [Node], at: u32)
    requires { at < length nodes.old }
    ensures { nodes.new ≡ slice_set nodes.old at (record (slice_index_or nodes.old at no_node) { pair = None }) }
{
    nodes[at as usize].pair = None;
}

// What is written when a used node becomes free.
fn free_raw(nodes: &mut [Node], ticks: &mut [u32], actors: &mut [u32], at: u32, due: Due)
    requires at_in { at < length nodes.old }
    requires wheel { length ticks.old ≡ 1024 }
    requires known { due.actor.0 + 1 < length actors.old }
    ensures nodes { nodes.new ≡ freed_nodes nodes.old actors.old at due }
    ensures ticks { ticks.new ≡ freed_ticks nodes.old ticks.old at due }
    ensures actors { actors.new ≡ freed_actors nodes.old actors.old at due }
{
    cut(nodes, ticks, Side::Tick, at, (due.tick % 1024) as usize);
    cut(nodes, actors, Side::Actor, at, due.actor.0 as usize + 1);
    set_free(nodes, at);
    put(nodes, actors, Side::Actor, at, 0);
}

/// A used node leaves both linkings and becomes free.
pub(crate) fn free(nodes: &mut [Node], ticks: &mut [u32], actors: &mut [u32], at: u32, due: Due)
    requires sound { Sound nodes.old ticks.old actors.old }
    requires used { pair_at nodes.old at ≡ Some due }
    ensures sound { Sound nodes.new ticks.new actors.new }
    ensures pairs { map (λ n. n.pair) nodes.new ≡ slice_set (map (λ n. n.pair) nodes.old) at None }
    ensures size { length actors.new ≡ length actors.old }
    ensures links { (y : ℕ) → y ≢ nil → y ≢ tick_prev nodes.old at → tick_next nodes.new y ≡ tick_next nodes.old y }
{
    free_raw(nodes, ticks, actors, at, due);
}

fn set_pair(nodes: &mut [Node], at: u32, due: Due)
    requires { at < length nodes.old }
    ensures { nodes.new ≡ slice_set nodes.old at (record (slice_index_or nodes.old at no_node) { pair = Some due }) }
{
    nodes[at as usize].pair = Some(due);
}

// What is written when a free node gets a pair.
fn fill_raw(nodes: &mut [Node], ticks: &mut [u32], actors: &mut [u32], at: u32, due: Due)
    requires at_in { at < length nodes.old }
    requires wheel { length ticks.old ≡ 1024 }
    requires known { due.actor.0 + 1 < length actors.old }
    ensures nodes { nodes.new ≡ used_nodes nodes.old ticks.old actors.old at due }
    ensures ticks { ticks.new ≡ put_heads ticks.old at (bucket due) }
    ensures actors { actors.new ≡ used_actors nodes.old actors.old at due }
{
    cut(nodes, actors, Side::Actor, at, 0);
    set_pair(nodes, at, due);
    put(nodes, ticks, Side::Tick, at, (due.tick % 1024) as usize);
    put(nodes, actors, Side::Actor, at, due.actor.0 as usize + 1);
}

/// A free node joins both linkings.
pub(crate) fn fill(nodes: &mut [Node], ticks: &mut [u32], actors: &mut [u32], at: u32, due: Due)
    requires sound { Sound nodes.old ticks.old actors.old }
    requires empty { pair_at nodes.old at ≡ None }
    requires at_in { at < length nodes.old }
    requires known { due.actor.0 + 1 < length actors.old }
    ensures sound { Sound nodes.new ticks.new actors.new }
    ensures pairs { pairs_of nodes.new ≡ slice_set (pairs_of nodes.old) at (Some due) }
    ensures size { length actors.new ≡ length actors.old }
{
    fill_raw(nodes, ticks, actors, at, due);
}
