use crate::{Parcel, Sample};
use sim_base::{Few, Items};

/// What comes of an event of an actor that bears actors of another type and shows no fault of its
/// own: the fields are those of an outcome.
#[derive(Drop)]
pub struct Bearing<S, N> {
    /// The actor's next state.
    pub state: S,
    /// The letters that it sends, in order.
    pub sends: Few<Parcel, 1>,
    /// The later ticks at which it wants to act.
    pub ticks: Few<u64, 1>,
    /// The actors that it wants to be born.
    pub births: Items<N>,
    /// What it samples, in order.
    pub samples: Few<Sample, 2>,
    /// Whether it leaves the run when this moment closes.
    pub retire: bool,
}
