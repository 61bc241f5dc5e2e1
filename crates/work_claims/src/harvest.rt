use inbox_order::Inboxes;
use quiescence::Closed;
use sim_base::Items;
use sim_model::Report;

/// What comes of a moment.
#[derive(Drop)]
pub struct Harvest<A> {
    /// The round, which is over.
    pub closed: Closed,
    /// The reports of all that were scheduled, ascending by actor.
    pub reports: Items<Report<A>>,
    /// The ordered inboxes of the letters that they send, without the letters on births. Who shows a
    /// fault of its own, or one of 900, 901 and 903, sends none.
    pub inboxes: Inboxes,
}
