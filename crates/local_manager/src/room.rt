ghost use Rattle.std.specs.Prelude.{◌≡◌, []};

use inbox_order::Inboxes;
use sim_model::Report;
use std::alloc::Global;

/// Room for the lists of a moment, which those of an earlier one had.
#[derive(Drop)]
pub struct Room<A> {
    /// For the reports; there are none in it where it is handed on (`World::take_room`).
    pub reports: Vec<Report<A>>,
    /// For the inboxes. What it holds doesn't matter.
    pub inboxes: Inboxes,
}

impl<A> Room<A> {
    /// No room. It takes no memory.
    pub fn new(alloc: Global) -> Room<A>
        ensures { result.reports.items ≡ [] }
    {
        Room {
            reports: Vec::new(alloc),
            inboxes: Inboxes::new(alloc),
        }
    }
}
