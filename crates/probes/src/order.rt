ghost use Rattle.std.specs.Prelude.{◌≡◌};
ghost use Rattle.probes.specs.LiveOrder.{comes_before, is_before};

use sim_base::{ActorId, Moment, Row};

/// Whether a row is of an earlier moment than an event, or of the same moment and a lesser actor.
#[tactic(auto, unfolding(crate::specs::LiveOrder::is_before))]
pub(crate) fn is_before(row: &Row, at: Moment, actor: ActorId) -> bool
    ensures { result ≡ is_before row.now at actor }
{
    (row.at, row.actor) < (at, actor)
}

/// Whether a row is of an earlier event than another.
pub(crate) fn comes_before(row: &Row, other: &Row) -> bool
    ensures { result ≡ comes_before row.now other.now }
{
    is_before(row, other.at, other.actor)
}
