ghost use Rattle.std.specs.Prelude.{◌≡◌, ◌+◌, ◌<◌, ◌≤◌, [], length, slice_index_or, slice_range, IfOk};
ghost use Rattle.std.specs.List.{filter};
ghost use Rattle.std.specs.List.Sorted.{IsNonDecreasingBy};
ghost use Rattle.actor_trait.specs.InboxOrder.{is_to};
ghost use Rattle.inbox_order.specs.Index.{IsIndex, is_last};

use actor_trait::Letter;
use sim_base::{ActorId, Memory};
use std::alloc::Global;

/// Where the letters to each recipient begin, in a list in which the letters to one stand side by
/// side. They end where those to the next begin.
#[derive(Drop)]
pub struct Index {
    /// Ascending, each once.
    pub recipients: Vec<ActorId>,
    pub starts: Vec<usize>,
}

impl Index {
    /// The index of no letters. It takes no memory.
    pub fn new(alloc: Global) -> Index
        ensures recipients { result.recipients.items ≡ [] }
        ensures starts { result.starts.items ≡ [] }
    {
        Index {
            recipients: Vec::new(alloc),
            starts: Vec::new(alloc),
        }
    }

    /// Empties the index, and keeps its room.
    pub fn clear(&mut self)
        ensures recipients { self.new.recipients.items ≡ [] }
        ensures starts { self.new.starts.items ≡ [] }
    {
        self.recipients.clear();
        self.starts.clear();
    }

    /// The index of letters that stand by recipient, in the room of this one. Err is want of memory.
    pub fn renewed(self, letters: &[Letter]) -> Result<Index, Memory>
        requires { IsNonDecreasingBy (λ l. l.to.0) letters.now }
        ensures { IfOk result (λ index. IsIndex letters.now index.recipients.items index.starts.items) }
    {
        let Index {
            mut recipients,
            mut starts,
        } = self;
        recipients.clear();
        starts.clear();
        for (at, letter) in letters.iter().enumerate() {
            if !ends_with(&recipients, letter.to) {
                recipients.push(letter.to)?;
                starts.push(at)?;
            }
        }
        Ok(Index { recipients, starts })
    }

    /// From where up to where the letters to one stand; from 0 to 0 where there are none. Whether it is
    /// the recipient at the place `near` is tried first; any number is right.
    pub fn range(&self, letters: &[Letter], near: usize, to: ActorId) -> (usize, usize)
        requires { IsIndex letters.now self.now.recipients.items self.now.starts.items }
        ensures ordered { result.0 ≤ result.1 }
        ensures within { result.1 ≤ length letters.now }
        ensures all { slice_range letters.now result.0 result.1 ≡ filter (is_to to) letters.now }
    {
        match self.recipients.get(near) {
            Some(recipient) if recipient.0 == to.0 => {
                (self.starts[near], self.end_of(near, letters.len()))
            }
            _ => self.search(letters, to),
        }
    }

    /// The same, by a binary search.
    fn search(&self, letters: &[Letter], to: ActorId) -> (usize, usize)
        requires { IsIndex letters.now self.now.recipients.items self.now.starts.items }
        ensures ordered { result.0 ≤ result.1 }
        ensures within { result.1 ≤ length letters.now }
        ensures all { slice_range letters.now result.0 result.1 ≡ filter (is_to to) letters.now }
    {
        match self.recipients.binary_search(&to) {
            Ok(at) => (self.starts[at], self.end_of(at, letters.len())),
            Err(_) => (0, 0),
        }
    }

    /// Where the letters to one end, of so many letters.
    fn end_of(&self, at: usize, letters: usize) -> usize
        requires { at < length self.now.starts.items }
        ensures { result ≡ slice_index_or self.now.starts.items (at + 1) letters }
    {
        self.starts.get(at + 1).copied().unwrap_or(letters)
    }
}

/// Whether an actor is the last recipient so far.
fn ends_with(recipients: &[ActorId], to: ActorId) -> bool
    ensures { result ≡ is_last recipients.now to }
{
    match recipients.last() {
        Some(last) => last.0 == to.0,
        None => false,
    }
}
