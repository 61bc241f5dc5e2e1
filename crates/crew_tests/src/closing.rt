ghost use Rattle.std.specs.Prelude.{◌≡◌, true, IfOk, IfSome};
ghost use Rattle.local_manager.specs.Views.{CanEnter};
ghost use Rattle.local_manager.specs.declared.phase.Phase.TheVariants as phase;
ghost use Rattle.work_claims.specs.Harvest.{IsHarvest};
ghost use Rattle.work_claims.specs.Worlds.{placed_in};

use actor_lifecycle::settle;
use actor_trait::Actor;
use agenda::Agenda;
use local_manager::World;
use sim_base::{Memory, Moment};
use sim_model::Settled;
use std::alloc::Global;
use work_claims::Harvest;

/// Closes the moment that a world has entered, by its harvest. False where somebody shows a fault: the
/// world is as before then. Err is want of memory.
fn close<A: Actor + Drop, G: Agenda + Drop>(
    alloc: Global,
    world: &mut World<A, G>,
    harvest: Harvest<A>,
) -> Result<bool, Memory>
    requires entered { world.old.phase ≡ phase.Entered }
    requires harvest { IsHarvest A.meaning (placed_in world.old) harvest }
    ensures { IfOk result (λ calm. calm ≡ true → world.new.phase ≡ phase.Closed) }
{
    let _managers = world.managers();
    let Harvest {
        reports,
        inboxes,
        ..
    } = harvest;
    let (next_id, max_actors) = (world.next_id(), world.max_actors());
    let settled = settle(alloc, reports, world.now(), next_id, max_actors)?;
    if let Settled::Faulted { .. } = settled {
        return Ok(false);
    }
    world.close(settled, inboxes)?;
    Ok(true)
}

/// The diasca after the moment that a world closed last, where somebody is scheduled there and it isn't
/// the limit.
fn next_diasca<A: Actor + Drop, G: Agenda + Drop>(world: &World<A, G>) -> Option<Moment>
    requires closed { world.now.phase ≡ phase.Closed }
    ensures { IfSome result (CanEnter world.now) }
{
    let at = world.now();
    let diasca = at.diasca.checked_add(1)?;
    if !world.pending() || diasca == world.parameters().diasca_limit {
        return None;
    }
    Some(Moment {
        tick: at.tick,
        diasca,
    })
}

/// Closes the moment that a world has entered, by its harvest, and enters the next diasca. False where
/// somebody shows a fault, and where nobody is scheduled at that diasca or it is the limit. Err is want of
/// memory.
pub fn enter_next<A: Actor + Drop, G: Agenda + Drop>(
    alloc: Global,
    world: &mut World<A, G>,
    harvest: Harvest<A>,
) -> Result<bool, Memory>
    requires entered { world.old.phase ≡ phase.Entered }
    requires harvest { IsHarvest A.meaning (placed_in world.old) harvest }
    ensures { IfOk result (λ went. went ≡ true → world.new.phase ≡ phase.Entered) }
{
    if !close(alloc, world, harvest)? {
        return Ok(false);
    }
    let Some(next) = next_diasca(world) else {
        return Ok(false);
    };
    world.enter(next)?;
    Ok(true)
}
