use crate::{Newborn, Report};
use actor_trait::Letter;
use sim_base::{ActorId, Items};

/// What becomes of the reports of a moment.
#[derive(Drop)]
pub enum Settled<A> {
    /// This actor shows a fault with this code, 1 to 903; it ends the run.
    Faulted {
        actor: ActorId,
        code: u32,
    },
    /// Nobody shows a fault.
    Settled {
        /// The reports, without their births.
        kept: Items<Report<A>>,
        /// Those who are born, in the order of their numbers.
        born: Items<Newborn<A>>,
        /// The letters that tell creators of births, in the same order.
        letters: Items<Letter>,
        /// Those who retire, ascending.
        retired: Items<ActorId>,
    },
}
