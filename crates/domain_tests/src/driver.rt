ghost use Rattle.std.specs.Prelude.{◌≡◌, ◌≢◌, ◌≤◌};
ghost use Rattle.local_manager.specs.declared.phase.Phase.TheVariants as phase;

use crate::moments::pass;
use actor_trait::Actor;
use agenda_wheel::WheelAgenda;
use local_manager::World;
use placement::Policy;
use sim_base::{Ending, Items, Memory, Moment, Row};
use sim_model::{Next, Results, Setup};
use std::alloc::Global;

/// What stands in a world after a moment.
#[derive(Clone, Copy, Debug, PartialEq, Eq)]
pub struct Standing {
    /// The moment.
    pub at: Moment,
    /// The number of the next newborn.
    pub next_id: u32,
    /// How many letters found no living recipient so far.
    pub dead_letters: u64,
    /// The least tick that somebody asked for.
    pub least: Option<u64>,
}

/// A run of a world.
#[derive(Drop)]
pub struct Driven {
    /// What it gives.
    pub results: Results,
    /// What stood after each moment but the last.
    pub standings: Vec<Standing>,
}

/// Lets a world run on one thread, moment by moment, for so many moments at most; None where it goes on.
/// Err is want of memory.
pub fn drive<A: Actor + Drop>(
    alloc: Global,
    setup: Setup<A>,
    managers: u32,
    policy: Policy,
    most: u32,
) -> Result<Option<Driven>, Memory>
    requires some { 1 ≤ managers }
    requires few { managers ≤ 16 }
{
    let mut world = World::<A, WheelAgenda>::open(alloc, setup, managers, policy)?;
    let mut at = Moment { tick: 0, diasca: 0 };
    let mut rows = Vec::new(alloc);
    let mut standings = Vec::new(alloc);
    for _moment in 0..most {
        match pass(alloc, &mut world, at, &mut rows)? {
            Next::Enters(next) => {
                standings.push(stand_of(&world))?;
                at = next;
            }
            Next::Ends(ending) => {
                let results = results_of(alloc, &world, rows, ending)?;
                return Ok(Some(Driven { results, standings }));
            }
        }
    }
    Ok(None)
}

fn stand_of<A: Actor + Drop>(world: &World<A, WheelAgenda>) -> Standing
    requires { world.now.phase ≢ phase.Torn }
{
    Standing {
        at: world.now(),
        next_id: world.next_id(),
        dead_letters: world.dead_letters(),
        least: world.least(),
    }
}

fn results_of<A: Actor + Drop>(
    alloc: Global,
    world: &World<A, WheelAgenda>,
    rows: Vec<Row>,
    ending: Ending,
) -> Result<Results, Memory> {
    Ok(Results {
        rows: Items::of(rows),
        cast: world.copy_cast(alloc)?,
        ending,
        last: world.now(),
        dead_letters: world.dead_letters(),
    })
}
