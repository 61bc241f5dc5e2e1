ghost use Rattle.std.specs.Prelude.{◌≡◌, ◌≤◌, ℕ, get_or, length};
ghost use Rattle.quiet_core.specs.Rows.{below};
ghost use Rattle.work_claims.specs.Letters.{parcels_to, sends_to};

use crate::scene::Scene;
use actor_trait::{Actor, Outcome, Parcel, fault_of};

/// The most managers of a world.
pub(crate) const MANAGERS: usize = 16;

/// How many letters an outcome sends to the actors of each manager, and how many in all: at most 1,024.
#[derive(Drop)]
pub(crate) struct Sending {
    pub to: [u32; MANAGERS],
    pub total: u32,
}

impl Sending {
    /// The letters of an outcome: none of one that shows a fault.
    pub fn of<A: Actor, W: Scene<A>>(world: &W, outcome: &Outcome<A>) -> Sending
        ensures wide { length result.to ≡ 16 }
        ensures each { (n : ℕ) → get_or result.to n 0 ≡ sends_to A.meaning (W.placed world.now) n outcome.now }
        ensures total { below (λ n. get_or result.to n 0) (W.placed world.now).managers ≡ result.total }
        ensures few { result.total ≤ 1024 }
    {
        if fault_of(outcome, world.now()).is_some() {
            return Sending {
                to: [0; MANAGERS],
                total: 0,
            };
        }
        Sending::of_parcels(world, outcome.sends.as_slice())
    }

    /// The letters that these are.
    fn of_parcels<A: Actor, W: Scene<A>>(world: &W, parcels: &[Parcel]) -> Sending
        requires { length parcels.now ≤ 1024 }
        ensures wide { length result.to ≡ 16 }
        ensures each { (n : ℕ) → get_or result.to n 0 ≡ parcels_to (W.placed world.now) n parcels.now }
        ensures total { below (λ n. get_or result.to n 0) (W.placed world.now).managers ≡ result.total }
        ensures few { result.total ≤ 1024 }
    {
        let _managers = world.managers();
        let mut to = [0; MANAGERS];
        for parcel in parcels {
            let home = world.route(parcel.to);
            to[home.0 as usize] += 1;
        }
        Sending {
            to,
            total: parcels.len() as u32,
        }
    }
}
