use crate::due_set::DueSet;
use crate::{
    Ended, Fault, Kind, Member, Newborn, Next, Parameters, Report, Results, Settled, Setup, Stage,
    Start, Underway, WorldState,
};

fn crosses_threads<T: Send + Sync>() {}

/// What the crate shows can be moved and lent to threads where actors can.
fn data_crosses_threads<A: Send + Sync>() {
    crosses_threads::<Start<A>>();
    crosses_threads::<Setup<A>>();
    crosses_threads::<WorldState<A>>();
    crosses_threads::<Report<A>>();
    crosses_threads::<Newborn<A>>();
    crosses_threads::<Settled<A>>();
    crosses_threads::<Underway<A>>();
    crosses_threads::<Ended<A>>();
    crosses_threads::<Stage<A>>();
    crosses_threads::<DueSet>();
    crosses_threads::<Fault>();
    crosses_threads::<Kind>();
    crosses_threads::<Member>();
    crosses_threads::<Next>();
    crosses_threads::<Parameters>();
    crosses_threads::<Results>();
}
