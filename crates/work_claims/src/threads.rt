// That the public data of this crate can be moved to another thread and, but for a hand, lent to one, and
// that many hands share a world that managers keep.
ghost use Rattle.std.specs.Prelude.{◌≡◌, ◌≤◌, length, IfOk};
ghost use Rattle.actor_trait.specs.Clocks.{clock_meaning};
ghost use Rattle.local_manager.specs.Views.{managers_of};
ghost use Rattle.local_manager.specs.declared.phase.Phase.TheVariants as phase;
ghost use Rattle.work_claims.specs.Harvest.{IsHarvest};
ghost use Rattle.work_claims.specs.Worlds.{placed_in};

use crate::{Acted, Collected, Harvest, crew};
use actor_trait::Clock;
use agenda::SortedAgenda;
use local_manager::World;
use manager_tree::Tree;
use sim_base::{Gate, Memory};
use std::alloc::Global;
use std::thread::Threads;

fn is_moved<T: Send>() {}

fn crosses_threads<T: Send + Sync>() {}

fn data_crosses_threads<A: Send + Sync>() {
    is_moved::<Acted<A>>();
    is_moved::<Collected>();
    crosses_threads::<Harvest<A>>();
}

/// A moment of a world of clocks.
fn worlds_are_shared<R: Threads + Sync, T: Gate + Sync>(
    rt: &R,
    alloc: Global,
    world: &World<Clock, SortedAgenda>,
    tree: &Tree,
    hands: u32,
    gate: &T,
) -> Result<Harvest<Clock>, Memory>
    requires entered { world.now.phase ≡ phase.Entered }
    requires somebody { 1 ≤ length world.now.one.scheduled }
    requires leaves { tree.now.leaves ≡ managers_of world.now }
    requires least_hands { 1 ≤ hands }
    requires most_hands { hands ≤ 64 }
    ensures { IfOk result (IsHarvest clock_meaning (placed_in world.now)) }
{
    crew(rt, alloc, world, tree, hands, gate)
}
