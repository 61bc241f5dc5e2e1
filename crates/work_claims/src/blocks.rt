ghost use Rattle.std.specs.Prelude.{◌≡◌, []};

use local_manager::Room;
use std::alloc::Global;

/// Blocks of memory for a moment, which earlier moments had.
#[derive(Drop)]
pub struct Blocks<A> {
    /// For the words of the round, as `Rounds::add` hands them back. What it holds doesn't matter.
    pub words: Vec<u64>,
    /// For the lists of reports and inboxes.
    pub room: Room<A>,
}

impl<A> Blocks<A> {
    /// No blocks. It takes no memory.
    pub fn new(alloc: Global) -> Blocks<A>
        ensures { result.room.reports.items ≡ [] }
    {
        Blocks {
            words: Vec::new(alloc),
            room: Room::new(alloc),
        }
    }
}
