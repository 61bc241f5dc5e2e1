use inbox_order::Inboxes;
use quiescence::Hand;
use sim_base::Items;
use sim_model::Report;

/// What the act phase of a hand gives.
#[derive(Drop)]
pub struct Acted<A> {
    /// The hand, whose account tells which actors it has done.
    pub hand: Hand,
    /// A report for each of them, in the order in which they acted.
    pub reports: Items<Report<A>>,
    /// Whether memory was wanted, so that the phase stopped before its end.
    pub short: bool,
}

/// What the collect phase of a hand gives.
#[derive(Drop)]
pub struct Collected {
    /// The hand, whose account tells which managers it collects.
    pub hand: Hand,
    /// The ordered inboxes of those whose manager it came to collect: one part or none.
    pub inboxes: Items<Inboxes>,
    /// Whether memory was wanted, so that the phase stopped before its end.
    pub short: bool,
}
