ghost use Rattle.std.specs.Prelude.{◌≡◌, ◌≤◌, true, IfOk, length};
ghost use Rattle.local_manager.specs.declared.phase.Phase.TheVariants as phase;
ghost use Rattle.crew_tests.specs.Scribes.{scribe_meaning};
ghost use Rattle.work_claims.specs.Harvest.{IsHarvest};
ghost use Rattle.work_claims.specs.Worlds.{placed_in};

use crate::{Page, Scribe, enter_next};
use agenda_wheel::WheelAgenda;
use inbox_order::Inboxes;
use local_manager::World;
use manager_tree::Tree;
use placement::Policy;
use quiescence::Closed;
use sim_base::{ActorId, Gate, Items, ManagerId, Moment, Name, OpenGate};
use sim_model::{Report, Setup, Start};
use std::alloc::Global;
use std::process::Abort;
use std::test::Fail;
use std::thread::Threads;
use work_claims::{Harvest, crew};

/// How many scribes there are at first.
const SCRIBES: u32 = 20;

/// What is expected of a moment.
struct Expected {
    /// Who acts.
    actors: &'static [u32],
    /// Each inbox: the recipient, and sender and serial of each letter in order.
    inboxes: &'static [(u32, &'static [(u32, u32)])],
    /// How many letters go in all.
    letters: u64,
    /// How many go from manager to manager, where there are three.
    between: [[u64; 3]; 3],
}

/// All act. 2 and 15 retire, and 4 and 9 bear an heir each. 21 isn't born yet.
const FIRST: Expected = Expected {
    actors: &[
        1, 2, 3, 4, 5, 6, 7, 8, 9, 10, 11, 12, 13, 14, 15, 16, 17, 18, 19, 20,
    ],
    inboxes: &[
        (1, &[(10, 1), (10, 0)]),
        (2, &[(3, 2), (3, 0), (3, 1), (13, 0)]),
        (3, &[(6, 1), (6, 0)]),
        (4, &[(9, 0)]),
        (5, &[(2, 1), (2, 0)]),
        (6, &[(15, 1), (15, 2), (5, 0), (15, 0)]),
        (8, &[(11, 1), (11, 0), (11, 2), (1, 0)]),
        (9, &[(14, 1), (14, 0)]),
        (10, &[(7, 1), (7, 0), (17, 0), (7, 2)]),
        (21, &[(19, 0), (19, 2), (19, 1), (18, 1), (18, 0)]),
    ],
    letters: 30,
    between: [[8, 2, 0], [1, 5, 3], [3, 3, 5]],
};

/// 6 and 8 show a fault. 2 is dead, and 21 newborn.
const SECOND: Expected = Expected {
    actors: &[1, 3, 4, 5, 6, 8, 9, 10, 21, 22],
    inboxes: &[
        (2, &[(9, 0), (3, 0)]),
        (
            5,
            &[(5, 2), (21, 1), (22, 1), (5, 1), (5, 0), (21, 0), (22, 0)],
        ),
        (21, &[(10, 1), (10, 0), (4, 1), (4, 0), (1, 1), (1, 0)]),
    ],
    letters: 15,
    between: [[0, 2, 6], [0, 3, 0], [2, 2, 0]],
};

/// What a scribe does at the first moment.
fn first_page(id: u32) -> Page
    requires { id ≤ 20 }
{
    Page {
        to: ActorId(if id > 17 { 21 } else { 1 + id * 7 % 10 }),
        letters: id % 4,
        births: if id == 4 || id == 9 { 1 } else { 0 },
        retires: id == 2 || id == 15,
        fault: 0,
    }
}

/// What it does later.
fn later_page(id: u32) -> Page
    requires { id ≤ 20 }
{
    let to = match id % 3 {
        0 => 2,
        1 => 21,
        _ => 5,
    };
    Page {
        to: ActorId(to),
        letters: 1 + id % 3,
        births: 0,
        retires: false,
        fault: if id == 6 || id == 8 { 17 } else { 0 },
    }
}

fn scribes(alloc: Global) -> Result<Items<Start<Scribe>>, Fail> {
    let mut starts = Items::new(alloc);
    for id in 1..=SCRIBES {
        starts.add(Start {
            name: Name::born("scribe", ActorId(id)),
            state: Scribe {
                first: first_page(id),
                later: later_page(id),
            },
        })?;
    }
    Ok(starts)
}

/// A world of scribes that has entered its first moment.
pub fn world_of<R: Abort>(
    rt: &R,
    alloc: Global,
    managers: u32,
) -> Result<World<Scribe, WheelAgenda>, Fail>
    requires some { 1 ≤ managers }
    requires few { managers ≤ 16 }
    ensures { IfOk result (λ world. world.phase ≡ phase.Entered) }
{
    let actors = scribes(alloc)?;
    assert!(rt; actors.len() == 20);
    let setup = Setup {
        seed: 9,
        last_tick: 10,
        diasca_limit: 5,
        max_actors: 30,
        actors,
        urgent: Items::of(vec![in alloc; ActorId(9), ActorId(10), ActorId(19)]?),
    };
    let mut world = World::open(alloc, setup, managers, Policy::RoundRobin)?;
    world.enter(Moment { tick: 0, diasca: 0 })?;
    Ok(world)
}

/// What comes of the moment that a world has entered.
pub fn harvest_of<R: Threads + Sync + Abort, T: Gate + Sync>(
    rt: &R,
    alloc: Global,
    world: &World<Scribe, WheelAgenda>,
    hands: u32,
    gate: &T,
) -> Result<Harvest<Scribe>, Fail>
    requires entered { world.now.phase ≡ phase.Entered }
    requires least_hands { 1 ≤ hands }
    requires most_hands { hands ≤ 64 }
    ensures { IfOk result (IsHarvest scribe_meaning (placed_in world.now)) }
{
    assert!(rt; world.count_scheduled() > 0);
    let tree = Tree::of(alloc, world.managers(), 2)?;
    let harvest = crew(rt, alloc, world, &tree, hands, gate)?;
    Ok(harvest)
}

/// Whether these are the actors of the reports, in order.
fn are_actors(reports: &[Report<Scribe>], expected: &[u32]) -> bool {
    reports.len() == expected.len()
        && reports
            .iter()
            .zip(expected)
            .all(|(report, id)| report.id.0 == *id)
}

/// Whether these are the letters of an inbox, in order.
fn is_inbox(inboxes: &Inboxes, to: u32, expected: &[(u32, u32)]) -> bool {
    let letters = inboxes.inbox(ActorId(to));
    letters.len() == expected.len()
        && letters.iter().zip(expected).all(|(letter, (from, serial))| (
            letter.from.0,
            letter.serial,
        ) == (*from, *serial))
}

/// Whether there are these inboxes and no other.
fn are_inboxes(inboxes: &Inboxes, expected: &[(u32, &[(u32, u32)])]) -> bool {
    inboxes.recipients().len() == expected.len()
        && expected
            .iter()
            .all(|(to, letters)| is_inbox(inboxes, *to, letters))
}

/// How many letters were posted from manager to manager; none where there is no such manager.
fn posted_between(closed: &Closed, m: u32, n: u32) -> u64 {
    let managers = closed.managers();
    if (m as usize) < managers && (n as usize) < managers {
        closed.posted(ManagerId(m), ManagerId(n))
    } else {
        0
    }
}

/// How many letters were posted in all.
fn all_posted(closed: &Closed) -> u64 {
    let mut all = 0u64;
    for m in 0..16u32 {
        for n in 0..16u32 {
            all = all.saturating_add(posted_between(closed, m, n));
        }
    }
    all
}

/// Whether the letters between three managers are these.
fn are_between(closed: &Closed, expected: &[[u64; 3]; 3]) -> bool {
    (0..3u32).all(|m| (0..3u32).all(|n| posted_between(closed, m, n)
        == expected[m as usize][n as usize]))
}

/// Whether a harvest is the expected one.
fn is_expected(harvest: &Harvest<Scribe>, expected: &Expected, managers: u32) -> bool {
    are_actors(harvest.reports.as_slice(), expected.actors)
        && are_inboxes(&harvest.inboxes, expected.inboxes)
        && all_posted(&harvest.closed) == expected.letters
        && (managers != 3 || are_between(&harvest.closed, &expected.between))
}

/// The harvest of the moment that a world has entered is the expected one, and the moment is closed. Ok is
/// whether another one is entered.
fn one_moment<R: Threads + Sync + Abort>(
    rt: &R,
    alloc: Global,
    world: &mut World<Scribe, WheelAgenda>,
    hands: u32,
    expected: &Expected,
) -> Result<bool, Fail>
    requires entered { world.old.phase ≡ phase.Entered }
    requires least_hands { 1 ≤ hands }
    requires most_hands { hands ≤ 64 }
    ensures { IfOk result (λ went. went ≡ true → world.new.phase ≡ phase.Entered) }
{
    let harvest = harvest_of(rt, alloc, world, hands, &OpenGate)?;
    assert!(rt; is_expected(&harvest, expected, world.managers()));
    let went = enter_next(alloc, world, harvest)?;
    Ok(went)
}

/// The harvests of two moments of a world of so many managers, by so many hands.
fn two_moments<R: Threads + Sync + Abort>(
    rt: &R,
    alloc: Global,
    managers: u32,
    hands: u32,
) -> Result<(), Fail>
    requires some { 1 ≤ managers }
    requires few { managers ≤ 16 }
    requires least_hands { 1 ≤ hands }
    requires most_hands { hands ≤ 64 }
{
    let mut world = world_of(rt, alloc, managers)?;
    if !one_moment(rt, alloc, &mut world, hands, &FIRST)? {
        return Err(Fail::from("no second moment"));
    }
    if one_moment(rt, alloc, &mut world, hands, &SECOND)? {
        return Err(Fail::from("a third moment"));
    }
    Ok(())
}

#[test]
fn many_hands_make_what_one_would(rt: HostRuntime) -> Result<(), Fail> {
    let alloc = rt.alloc();
    for managers in [1, 3, 16] {
        for hands in [1, 2, 4, 64] {
            two_moments(&rt, alloc, managers, hands)?;
        }
    }
    Ok(())
}
