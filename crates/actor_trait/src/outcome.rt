use crate::{FaultCode, Parcel};
use sim_base::{Few, Items};

/// A value of one of the actor's probes.
#[derive(Clone, Copy, Debug, Default, PartialEq, Eq)]
pub struct Sample {
    /// The number of the probe among those that the kind declares, from 0.
    pub probe: u32,
    /// What it shows.
    pub value: i64,
}

/// What comes of an event.
#[derive(Drop)]
pub struct Outcome<A> {
    /// The actor's next state.
    pub state: A,
    /// The letters that it sends, in order.
    pub sends: Few<Parcel, 1>,
    /// The later ticks at which it wants to act.
    pub ticks: Few<u64, 1>,
    /// The actors that it wants to be born.
    pub births: Items<A>,
    /// What it samples, in order.
    pub samples: Few<Sample, 2>,
    /// Whether it leaves the run when this moment closes.
    pub retire: bool,
    /// A fault of the model's own, which ends the run.
    pub fault: Option<FaultCode>,
}
