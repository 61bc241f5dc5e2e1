ghost use Rattle.actor_lifecycle.specs.Settling.{CanSettleAfter};

use actor_trait::Actor;
use sim_model::Setup;

/// Whatever moment a run enters next, its reports ascend and its next number is at most one past the
/// most, as `settle` asks. A law of the definitions, with nothing to do at run time.
pub fn each_moment_can_be_settled<A: Actor>(setup: &Setup<A>, moments: u64)
    ensures { CanSettleAfter A.meaning setup.now moments }
{
    let _last = setup.last_tick;
}
