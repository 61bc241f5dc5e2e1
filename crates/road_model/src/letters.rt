//! What roads and vehicles write to one another, and what tells an origin of a birth.

ghost use Rattle.std.specs.Prelude.{◌≡◌, [], ◌∷◌, ◌++◌, OnOk};
ghost use Rattle.std.specs.List.{count_by};
ghost use Rattle.road_model.specs.Letters.{has_code, is_birth, parcel};

use actor_trait::{Letter, Parcel, Payload};
use sim_base::{ActorId, Few, Memory};

/// To a road: the sender would enter it.
pub(crate) const ENTER: u32 = 20;

/// To a vehicle: it is on the road, and `a` is how many ticks it drives there.
pub(crate) const ADMIT: u32 = 21;

/// To a road: the sender is off it.
pub(crate) const LEAVE: u32 = 22;

/// The balancer, who tells a creator of each birth.
const BALANCER: u32 = 0;

/// From the balancer: an actor was born.
const BIRTH: u32 = 0;

/// Sends a letter with a code and a number.
pub(crate) fn send(sends: &mut Few<Parcel, 1>, to: ActorId, code: u32, a: i64) -> Result<(), Memory>
    ensures { OnOk result (sends.new ≡ sends.old ++ parcel to code a ∷ []) }
{
    let payload = Payload { code, a, b: 0 };
    sends.add(Parcel { to, payload })
}

/// How many letters have a code.
pub(crate) fn count(inbox: &[Letter], code: u32) -> usize
    ensures { result ≡ count_by (has_code code) inbox.now }
{
    inbox
        .iter()
        .filter(|letter| letter.payload.code == code)
        .count()
}

/// How many births the letters tell of.
pub(crate) fn count_births(inbox: &[Letter]) -> usize
    ensures { result ≡ count_by is_birth inbox.now }
{
    inbox
        .iter()
        .filter(|letter| letter.from.0 == BALANCER && letter.payload.code == BIRTH)
        .count()
}
