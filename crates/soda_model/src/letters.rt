//! What customers, machines and refills write to one another.

ghost use Rattle.std.specs.Prelude.{◌≡◌, [], ◌∷◌, ◌++◌, OnOk};
ghost use Rattle.soda_model.specs.Letters.{parcel};

use actor_trait::{Parcel, Payload};
use sim_base::{ActorId, Few, Memory};

/// To a machine: `a` is money for a can.
pub(crate) const OFFER: u32 = 10;

/// To a customer: a can, and `a` is the change.
pub(crate) const CAN: u32 = 11;

/// To a customer: `a` is the money again, and `b` says why.
pub(crate) const REFUND: u32 = 12;

/// To a machine: `a` is the number of cans that come.
pub(crate) const FILL: u32 = 13;

/// The cause of a refund: no can is left.
pub(crate) const SOLD_OUT: i64 = 1;

/// The cause of a refund: the price isn't met.
pub(crate) const TOO_LITTLE: i64 = 2;

/// Sends a letter.
pub(crate) fn send(
    sends: &mut Few<Parcel, 1>,
    to: ActorId,
    code: u32,
    a: i64,
    b: i64,
) -> Result<(), Memory>
    ensures { OnOk result (sends.new ≡ sends.old ++ parcel to code a b ∷ []) }
{
    let payload = Payload { code, a, b };
    sends.add(Parcel { to, payload })
}
