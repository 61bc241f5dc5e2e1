ghost use Rattle.std.specs.Prelude.{◌≡◌, ◌<◌, map, IfOk, Some};
ghost use Rattle.std.specs.List.{AllPairs};
ghost use Rattle.sim_model.specs.Moment.{fault_of_moment};
ghost use Rattle.sim_model.specs.Run.{IsRun, follow, judge, opening, results_of, step};
ghost use Rattle.sim_model.specs.Stepping.{RisesFrom};
ghost use Rattle.sim_model.specs.Whole.{IsWhole};

use crate::births::count_births;
use crate::cast::opening_cast;
use crate::closing::add_rows;
use crate::due_set::DueSet;
use crate::{Fault, Member, Next, Report, Setup, Start, Underway, WorldState};
use actor_trait::Actor;
use inbox_order::Inboxes;
use sim_base::{Ending, Items, Memory, Moment, Row};
use std::alloc::Global;

/// What a run gives.
#[derive(Drop)]
pub struct Results {
    /// All samples, by moment, then by actor, then in the order of the event.
    pub rows: Items<Row>,
    /// Every actor that was ever there, ascending.
    pub cast: Items<Member>,
    /// How it ended.
    pub ending: Ending,
    /// The moment entered last, which is the faulted one after a fault.
    pub last: Moment,
    /// How many letters found no living recipient; the count stands still at the end of u64.
    pub dead_letters: u64,
}

fn first_states<A: Actor + Drop>(
    alloc: Global,
    actors: &[Start<A>],
) -> Result<Items<Option<A>>, Memory>
    ensures { IfOk result (λ states. states ≡ map (λ a. Some a.state) actors.now) }
{
    let mut states = Vec::with_capacity(alloc, actors.len())?;
    for actor in actors {
        states.push(Some(actor.state.copy(alloc)?))?;
    }
    Ok(Items::of(states))
}

fn opening<A: Actor + Drop>(alloc: Global, setup: &Setup<A>) -> Result<Underway<A>, Memory>
    ensures { IfOk result (λ u. u ≡ opening A.meaning setup.now) }
{
    Ok(Underway {
        last: None,
        next: Moment { tick: 0, diasca: 0 },
        world: WorldState {
            parameters: setup.parameters(alloc)?,
            states: first_states(alloc, setup.actors.as_slice())?,
            agenda: DueSet::new(alloc),
            letters: Items::new(alloc),
            newborn: Items::new(alloc),
            scheduled: Items::new(alloc),
            cast: Items::of(opening_cast(alloc, setup.actors.as_slice())?),
            dead_letters: 0,
        },
        rows: Items::new(alloc),
    })
}

/// Lists whose room each moment uses again.
#[derive(Drop)]
struct Room<A> {
    inboxes: Inboxes,
    reports: Vec<Report<A>>,
}

/// Closes a moment that is entered, unless somebody shows a fault. The answer is what comes next.
fn judge<A: Actor + Drop>(
    alloc: Global,
    at: Moment,
    world: &mut WorldState<A>,
    rows: &mut Items<Row>,
    reports: &mut Vec<Report<A>>,
) -> Result<Next, Memory>
    requires whole { IsWhole A.meaning world.old }
    requires diasca { at.diasca < world.old.parameters.diasca_limit }
    requires ascending { AllPairs (λ r q. r.id.0 < q.id.0) reports.old.items }
    ensures { IfOk result (λ next. follow at world.new rows.new next ≡ judge A.meaning at world.old rows.old reports.old.items
        (fault_of_moment A.meaning world.old at reports.old.items)) }
{
    let max_actors = world.parameters.max_actors;
    let count = match count_births(reports, max_actors, world.next_id(), at) {
        Ok(count) => count,
        Err(Fault { actor, code }) => return Ok(Next::Ends(Ending::Fault { actor, code })),
    };
    add_rows(alloc, rows, at, reports)?;
    world.close(alloc, reports, count)?;
    Ok(world.what_comes_next(at))
}

/// The next moment of a run, entered and closed. The answer is what comes after it.
#[tactic(auto, unfolding(crate::specs::Run::step))]
fn step<A: Actor + Drop>(
    alloc: Global,
    underway: &mut Underway<A>,
    room: &mut Room<A>,
) -> Result<Next, Memory>
    requires whole { IsWhole A.meaning underway.old.world }
    requires diasca { underway.old.next.diasca < underway.old.world.parameters.diasca_limit }
    requires agenda { RisesFrom underway.old.next.tick underway.old.world.agenda }
    ensures { IfOk result (λ next. follow underway.old.next underway.new.world underway.new.rows next ≡ step A.meaning underway.old) }
{
    let at = underway.next;
    let world = &mut underway.world;
    world.enter(alloc, at, &mut room.inboxes)?;
    world.reports(alloc, at, &room.inboxes, &mut room.reports)?;
    judge(alloc, at, world, &mut underway.rows, &mut room.reports)
}

fn give_results<A: Drop>(last: Moment, ending: Ending, underway: Underway<A>) -> Results
    ensures { result ≡ results_of (record { last = last; ending = ending; world = underway.world; rows = underway.rows }) }
{
    let Underway {
        last: _,
        next: _,
        world,
        rows,
    } = underway;
    Results {
        rows,
        cast: world.cast,
        ending,
        last,
        dead_letters: world.dead_letters,
    }
}

/// Runs a setup to its end on one thread, one moment after another. Err is want of memory.
pub fn plain_run<A: Actor + Drop>(alloc: Global, setup: &Setup<A>) -> Result<Results, Memory>
    ensures { IfOk result (λ r. IsRun A.meaning setup.now r) }
{
    let _last = setup.last_tick;
    let mut underway = opening(alloc, setup)?;
    let mut room = Room {
        inboxes: Inboxes::new(alloc),
        reports: Vec::new(alloc),
    };
    loop {
        let at = underway.next;
        match step(alloc, &mut underway, &mut room)? {
            Next::Enters(next) => {
                underway.last = Some(at);
                underway.next = next;
            }
            Next::Ends(ending) => return Ok(give_results(at, ending, underway)),
        }
    }
}
