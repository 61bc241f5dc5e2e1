ghost use Rattle.sim_model.specs.Run.{RunEnds, RunGoesOn};
ghost use Rattle.sim_model.specs.Whole.{AreRowsAfter, IsWholeAfter};

use crate::Setup;
use actor_trait::Actor;

/// The run of every setup ends: a law of the definitions, with nothing to do at run time.
pub fn each_run_ends<A: Actor>(setup: &Setup<A>)
    ensures { RunEnds A.meaning setup.now }
{
    let _last = setup.last_tick;
}

/// From the stage to which a run has come after so many moments it goes on to each later one, and to
/// its end. A law of the definitions, with nothing to do at run time.
pub fn each_run_goes_on<A: Actor>(setup: &Setup<A>, moments: u64, further: u64)
    ensures { RunGoesOn A.meaning setup.now moments further }
{
    let _last = setup.last_tick;
}

/// The world that the run of a setup has come to after so many moments is whole, before and after it
/// enters the next one, and each that is scheduled there acts; the rows so far are in order, none is
/// later than the moment entered last, and each is of a probe of somebody in the cast. A law of the
/// definitions, with nothing to do at run time.
pub fn each_world_is_whole<A: Actor>(setup: &Setup<A>, moments: u64)
    ensures whole { IsWholeAfter A.meaning setup.now moments }
    ensures rows { AreRowsAfter A.meaning setup.now moments }
{
    let _last = setup.last_tick;
}
