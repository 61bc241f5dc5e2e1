use crate::WorldState;
use sim_base::{Ending, Items, Moment, Row};

/// A run before it enters a moment.
#[derive(Drop)]
pub struct Underway<A> {
    /// The moment entered last; None before the first.
    pub last: Option<Moment>,
    /// The moment that is entered next.
    pub next: Moment,
    /// The world between these two.
    pub world: WorldState<A>,
    /// All samples so far, by moment, then by actor, then in the order of the event.
    pub rows: Items<Row>,
}

/// A run that is over.
#[derive(Drop)]
pub struct Ended<A> {
    /// The moment entered last.
    pub last: Moment,
    /// How it ended.
    pub ending: Ending,
    /// The world at that moment: closed, or entered where it shows a fault.
    pub world: WorldState<A>,
    /// All samples, by moment, then by actor, then in the order of the event.
    pub rows: Items<Row>,
}

/// How far a run has come.
#[derive(Drop)]
pub enum Stage<A> {
    /// Another moment is entered.
    Going(Underway<A>),
    /// No further moment is entered.
    Over(Ended<A>),
}
