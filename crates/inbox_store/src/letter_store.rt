ghost use Rattle.std.specs.Prelude.{◌≡◌, ◌≢◌, ◌+◌, ◌<◌, ◌≤◌, ◌++◌, ◌∷◌, ℕ, [], length, OnOk, OnErr};
ghost use Rattle.inbox_store.specs.Letters.{letter_count, list_of, top_of};

use crate::chains::{Chain, Node, drain, empty_all, grow, move_front};
use actor_trait::Letter;
use sim_base::{ActorId, Memory, Roomy};
use std::alloc::Global;
use std::marker::Model;

/// For each recipient from 0 to a greatest one, `top`, a list of letters, and room for so many letters
/// more, `spare`.
#[derive(Drop)]
pub struct LetterStore {
    nodes: Vec<Node>,
    chains: Vec<Chain>,
}

impl Model for LetterStore {
    ghost use Rattle.std.specs.Prelude.{◌<◌, ◌≤◌, length};
    ghost use Rattle.inbox_store.specs.Chains.{store, IsSound};
    ghost use Rattle.inbox_store.specs.Letters.{Letters};

    ghost Value = { Letters };

    ghost view = { λ s. store s.nodes.items s.chains.items };

    ghost invariant = { λ s. IsSound s.nodes.items s.chains.items × (0 < length s.chains.items → 2 ≤ length s.chains.items) };
}

impl LetterStore {
    /// The store without a letter and without room. It takes no memory, and grows by this allocator.
    pub fn new(alloc: Global) -> LetterStore
        ensures empty { (id : ℕ) → list_of result id ≡ [] }
        ensures spare { result.spare ≡ 0 }
        ensures top { top_of result ≡ 0 }
    {
        LetterStore {
            nodes: Vec::new(alloc),
            chains: Vec::new(alloc),
        }
    }

    /// Makes room for so many letters more, to recipients up to `top`. Err is want of memory, and
    /// changes nothing.
    pub fn reserve(&mut self, letters: usize, top: ActorId) -> Result<(), Memory>
        ensures lists { (id : ℕ) → list_of self.new id ≡ list_of self.old id }
        ensures room { OnOk result (letters ≤ self.new.spare) }
        ensures known { OnOk result (top.0 ≤ top_of self.new) }
        ensures spare { self.old.spare ≤ self.new.spare }
        ensures top { top_of self.old ≤ top_of self.new }
        ensures refused { OnErr result (self.new ≡ self.old) }
    {
        grow(
            &mut self.nodes,
            &mut self.chains,
            letters,
            top.0 as usize + 2,
        )
    }

    /// Appends a letter to the list of its recipient. It takes no memory.
    pub fn put(&mut self, letter: Letter)
        requires room { 0 < self.old.spare }
        requires known { letter.to.0 ≤ top_of self.old }
        ensures list { list_of self.new letter.to.0 ≡ list_of self.old letter.to.0 ++ letter ∷ [] }
        ensures others { (id : ℕ) → id ≢ letter.to.0 → list_of self.new id ≡ list_of self.old id }
        ensures spare { self.new.spare + 1 ≡ self.old.spare }
        ensures top { top_of self.new ≡ top_of self.old }
    {
        let list = letter.to.0 as usize + 1;
        move_front(&mut self.nodes, &mut self.chains, 0, list, letter);
    }

    /// How many letters one has; none past `top`.
    pub fn count_of(&self, to: ActorId) -> usize
        ensures { result ≡ length (list_of self.now to.0) }
    {
        match self.chains.get(to.0 as usize + 1) {
            Some(chain) => chain.count,
            None => 0,
        }
    }

    /// Moves the letters of one, in the order in which they were put, to the end of another list. It
    /// takes no memory.
    pub fn drain_of(&mut self, to: ActorId, into: &mut Roomy<Letter>)
        requires { length (list_of self.old to.0) ≤ into.old.spare }
        ensures taken { into.new.list ≡ into.old.list ++ list_of self.old to.0 }
        ensures room { into.new.spare + length (list_of self.old to.0) ≡ into.old.spare }
        ensures emptied { list_of self.new to.0 ≡ [] }
        ensures others { (id : ℕ) → id ≢ to.0 → list_of self.new id ≡ list_of self.old id }
        ensures spare { self.new.spare ≡ self.old.spare + length (list_of self.old to.0) }
        ensures top { top_of self.new ≡ top_of self.old }
    {
        let list = to.0 as usize + 1;
        if list < self.chains.len() {
            drain(&mut self.nodes, &mut self.chains, list, into);
        }
    }

    /// Lets go of all letters, and keeps the room that they had.
    pub fn clear(&mut self)
        ensures empty { (id : ℕ) → list_of self.new id ≡ [] }
        ensures spare { self.new.spare ≡ self.old.spare + letter_count self.old }
        ensures top { top_of self.new ≡ top_of self.old }
    {
        empty_all(&mut self.nodes, &mut self.chains);
    }
}
