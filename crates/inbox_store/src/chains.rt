ghost use Rattle.std.specs.Prelude.{◌≡◌, ◌≢◌, ◌+◌, ◌-◌, ◌<◌, ◌≤◌, ◌++◌, ◌∷◌, ℕ, [], length, reverse, vec_len, vec_capacity, OnOk, OnErr};
ghost use Rattle.std.specs.List.{sum_by};
ghost use Rattle.inbox_store.specs.Chains.{chain_of, newest, walk, letters_at, IsIn, IsSound, Grows, Shifts, shifted_nodes, shifted_chains};

use actor_trait::{Letter, Payload};
use sim_base::{ActorId, Memory, Roomy};

/// A letter, and the node after it in its list.
#[derive(Clone, Copy)]
pub(crate) struct Node {
    letter: Letter,
    next: usize,
}

/// Where a list begins, and how many nodes it has. The list 0 holds the free nodes, and the list
/// `id + 1` the letters to `id`, the newest first.
#[derive(Clone, Copy)]
pub(crate) struct Chain {
    head: usize,
    pub(crate) count: usize,
}

/// A list without nodes.
const EMPTY: Chain = Chain { head: 0, count: 0 };

/// What a node holds that had no letter yet.
const BLANK: Letter = Letter {
    to: ActorId(0),
    from: ActorId(0),
    serial: 0,
    payload: Payload {
        code: 0,
        a: 0,
        b: 0,
    },
};

/// How many nodes are free.
fn free_count(chains: &[Chain]) -> usize
    ensures { result ≡ (chain_of chains.now 0).count }
{
    match chains.first() {
        Some(free) => free.count,
        None => 0,
    }
}

/// One free node more.
fn add_node(nodes: &mut Vec<Node>, chains: &mut Vec<Chain>)
    requires sound { IsSound nodes.old.items chains.old.items }
    requires some { 0 < length chains.old.items }
    requires room { vec_len nodes.old < vec_capacity nodes.old }
    ensures grows { Grows nodes.old.items chains.old.items nodes.new.items chains.new.items }
    ensures len { vec_len nodes.new ≡ vec_len nodes.old + 1 }
    ensures capacity { vec_capacity nodes.new ≡ vec_capacity nodes.old }
{
    let at = nodes.len();
    let Chain { head, count } = chains[0];
    nodes.push_reserved(Node {
        letter: BLANK,
        next: head,
    });
    chains[0] = Chain {
        head: at,
        count: count + 1,
    };
}

/// So many free nodes more.
fn add_free(nodes: &mut Vec<Node>, chains: &mut Vec<Chain>, more: usize)
    requires sound { IsSound nodes.old.items chains.old.items }
    requires some { 0 < length chains.old.items }
    requires room { vec_len nodes.old + more ≤ vec_capacity nodes.old }
    ensures sound { IsSound nodes.new.items chains.new.items }
    ensures others { (c : ℕ) → c ≢ 0 → newest nodes.new.items chains.new.items c ≡ newest nodes.old.items chains.old.items c }
    ensures free { (chain_of chains.new.items 0).count ≡ (chain_of chains.old.items 0).count + more }
    ensures size { length chains.new.items ≡ length chains.old.items }
{
    for _ in 0..more {
        add_node(nodes, chains);
    }
}

/// At least so many lists; the new ones are empty. Err is want of memory, and changes nothing.
fn add_lists(chains: &mut Vec<Chain>, lists: usize) -> Result<(), Memory>
    ensures same { (c : ℕ) → chain_of chains.new.items c ≡ chain_of chains.old.items c }
    ensures sum { sum_by (λ e. e.count) chains.new.items ≡ sum_by (λ e. e.count) chains.old.items }
    ensures enough { OnOk result (lists ≤ length chains.new.items) }
    ensures keeps { length chains.old.items ≤ length chains.new.items }
    ensures refused { OnErr result (chains.new.items ≡ chains.old.items) }
{
    if chains.len() < lists {
        chains.resize(lists, EMPTY)?;
    }
    Ok(())
}

/// At least so many free nodes, and so many lists. Err is want of memory, and changes nothing.
pub(crate) fn grow(
    nodes: &mut Vec<Node>,
    chains: &mut Vec<Chain>,
    free: usize,
    lists: usize,
) -> Result<(), Memory>
    requires sound { IsSound nodes.old.items chains.old.items }
    requires some { 0 < lists }
    ensures sound { IsSound nodes.new.items chains.new.items }
    ensures others { (c : ℕ) → c ≢ 0 → newest nodes.new.items chains.new.items c ≡ newest nodes.old.items chains.old.items c }
    ensures room { OnOk result (free ≤ (chain_of chains.new.items 0).count) }
    ensures enough { OnOk result (lists ≤ length chains.new.items) }
    ensures free { (chain_of chains.old.items 0).count ≤ (chain_of chains.new.items 0).count }
    ensures keeps { length chains.old.items ≤ length chains.new.items }
    ensures refused { OnErr result ((nodes.new.items ≡ nodes.old.items) × (chains.new.items ≡ chains.old.items)) }
{
    let more = free.saturating_sub(free_count(chains));
    nodes.reserve(more)?;
    add_lists(chains, lists)?;
    add_free(nodes, chains, more);
    Ok(())
}

/// The first node of the list `from` becomes the first of the list `to`, with this letter.
fn shift(nodes: &mut Vec<Node>, chains: &mut Vec<Chain>, from: usize, to: usize, letter: Letter)
    requires apart { from ≢ to }
    requires from_in { from < length chains.old.items }
    requires to_in { to < length chains.old.items }
    requires some { 0 < (chain_of chains.old.items from).count }
    requires node_in { (chain_of chains.old.items from).head < length nodes.old.items }
    requires fits { (chain_of chains.old.items to).count + 1 ≤ length nodes.old.items }
    ensures nodes { nodes.new.items ≡ shifted_nodes nodes.old.items chains.old.items from to letter }
    ensures chains { chains.new.items ≡ shifted_chains nodes.old.items chains.old.items from to }
{
    let Chain { head: at, count } = chains[from];
    let Chain {
        head: below,
        count: size,
    } = chains[to];
    let next = nodes[at].next;
    nodes[at] = Node {
        letter,
        next: below,
    };
    chains[from] = Chain {
        head: next,
        count: count - 1,
    };
    chains[to] = Chain {
        head: at,
        count: size + 1,
    };
}

/// The same, where the nodes and lists are sound: each other list stays.
pub(crate) fn move_front(
    nodes: &mut Vec<Node>,
    chains: &mut Vec<Chain>,
    from: usize,
    to: usize,
    letter: Letter,
)
    requires sound { IsSound nodes.old.items chains.old.items }
    requires apart { from ≢ to }
    requires from_in { from < length chains.old.items }
    requires to_in { to < length chains.old.items }
    requires some { 0 < (chain_of chains.old.items from).count }
    ensures { Shifts nodes.old.items chains.old.items nodes.new.items chains.new.items from to letter }
{
    shift(nodes, chains, from, to, letter);
}

/// All nodes of a list become free.
fn empty(nodes: &mut Vec<Node>, chains: &mut Vec<Chain>, list: usize)
    requires sound { IsSound nodes.old.items chains.old.items }
    requires used { list ≢ 0 }
    requires list_in { list < length chains.old.items }
    ensures sound { IsSound nodes.new.items chains.new.items }
    ensures emptied { newest nodes.new.items chains.new.items list ≡ [] }
    ensures others { (c : ℕ) → c ≢ 0 → c ≢ list → newest nodes.new.items chains.new.items c ≡ newest nodes.old.items chains.old.items c }
    ensures free { (chain_of chains.new.items 0).count ≡ (chain_of chains.old.items 0).count + length (newest nodes.old.items chains.old.items list) }
    ensures size { length chains.new.items ≡ length chains.old.items }
    ensures whole { length nodes.new.items ≡ length nodes.old.items }
{
    while chains[list].count > 0 {
        let letter = nodes[chains[list].head].letter;
        move_front(nodes, chains, list, 0, letter);
    }
}

/// All nodes of all lists become free.
pub(crate) fn empty_all(nodes: &mut Vec<Node>, chains: &mut Vec<Chain>)
    requires sound { IsSound nodes.old.items chains.old.items }
    ensures sound { IsSound nodes.new.items chains.new.items }
    ensures emptied { (c : ℕ) → c ≢ 0 → newest nodes.new.items chains.new.items c ≡ [] }
    ensures size { length chains.new.items ≡ length chains.old.items }
    ensures whole { length nodes.new.items ≡ length nodes.old.items }
{
    for used in 1..chains.len() {
        empty(nodes, chains, used);
    }
}

/// The letters of a list, the newest first.
fn copy_out(nodes: &[Node], chain: Chain, into: &mut Roomy<Letter>)
    requires room { chain.count ≤ into.old.spare }
    requires inside { (x : ℕ) → IsIn x (walk nodes.now chain.count chain.head) → x < length nodes.now }
    ensures taken { into.new.list ≡ into.old.list ++ letters_at nodes.now (walk nodes.now chain.count chain.head) }
    ensures spare { into.new.spare + chain.count ≡ into.old.spare }
{
    let mut at = chain.head;
    let mut left = chain.count;
    while left > 0 {
        let Node { letter, next } = nodes[at];
        into.add(letter);
        at = next;
        left -= 1;
    }
}

/// The letters of a list, the oldest first; its nodes become free.
pub(crate) fn drain(
    nodes: &mut Vec<Node>,
    chains: &mut Vec<Chain>,
    list: usize,
    into: &mut Roomy<Letter>,
)
    requires sound { IsSound nodes.old.items chains.old.items }
    requires used { list ≢ 0 }
    requires list_in { list < length chains.old.items }
    requires room { length (newest nodes.old.items chains.old.items list) ≤ into.old.spare }
    ensures sound { IsSound nodes.new.items chains.new.items }
    ensures emptied { newest nodes.new.items chains.new.items list ≡ [] }
    ensures others { (c : ℕ) → c ≢ 0 → c ≢ list → newest nodes.new.items chains.new.items c ≡ newest nodes.old.items chains.old.items c }
    ensures free { (chain_of chains.new.items 0).count ≡ (chain_of chains.old.items 0).count + length (newest nodes.old.items chains.old.items list) }
    ensures size { length chains.new.items ≡ length chains.old.items }
    ensures taken { into.new.list ≡ into.old.list ++ reverse (newest nodes.old.items chains.old.items list) }
    ensures spare { into.new.spare + length (newest nodes.old.items chains.old.items list) ≡ into.old.spare }
{
    let at = into.len();
    let chain = chains[list];
    copy_out(nodes.as_slice(), chain, into);
    into.reverse_from(at);
    empty(nodes, chains, list);
}
