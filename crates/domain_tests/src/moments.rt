ghost use Rattle.std.specs.Prelude.{◌≡◌, ◌++◌, ◌<◌, ◌≤◌, ◌^◌, length, map, IfOk, OnOk, None};
ghost use Rattle.std.specs.List.{All, flat_map};
ghost use Rattle.sim_base.specs.declared.moment.Moment.{Moment};
ghost use Rattle.sim_model.specs.Births.{without_births};
ghost use Rattle.sim_model.specs.Moment.{post, sends_of, what_comes_next};
ghost use Rattle.sim_model.specs.declared.next.Next.TheVariants as next;
ghost use Rattle.local_manager.specs.Views.{AreInboxesNow, CanEnter, reports_now};
ghost use Rattle.local_manager.specs.declared.phase.Phase.TheVariants as phase;

use crate::reporting::reports;
use actor_lifecycle::settle;
use actor_trait::{Actor, Letter, Parcel, Precedence};
use agenda::Agenda;
use inbox_order::Inboxes;
use local_manager::World;
use sim_base::{ActorId, Ending, Items, Memory, Moment, Row};
use sim_model::{Fault, Next, Report, Settled};
use std::alloc::Global;

/// Adds what one sends.
fn post(letters: &mut Vec<Letter>, from: ActorId, parcels: &[Parcel]) -> Result<(), Memory>
    requires { length parcels.now < 2 ^ 32 }
    ensures { OnOk result (letters.new.items ≡ letters.old.items ++ post from 0 parcels.now) }
{
    let mut serial = 0;
    for parcel in parcels {
        letters.push(Letter {
            to: parcel.to,
            from,
            serial,
            payload: parcel.payload,
        })?;
        serial += 1;
    }
    Ok(())
}

/// What all send, in order of sender. Err is want of memory.
fn letters_of<A>(alloc: Global, reports: &[Report<A>]) -> Result<Vec<Letter>, Memory>
    requires { All (λ r. length r.outcome.sends ≤ 1024) reports.now }
    ensures { IfOk result (λ letters. letters.items ≡ flat_map sends_of reports.now) }
{
    let mut letters = Vec::new(alloc);
    for report in reports {
        post(&mut letters, report.id, report.outcome.sends.as_slice())?;
    }
    Ok(letters)
}

/// The inboxes of what is sent at the moment that is entered.
fn inboxes_of<A: Actor + Drop, G: Agenda + Drop>(
    alloc: Global,
    world: &World<A, G>,
    kept: &[Report<A>],
) -> Result<Inboxes, Memory>
    requires entered { world.now.phase ≡ phase.Entered }
    requires kept { kept.now ≡ map without_births (reports_now A.meaning world.now) }
    requires few { All (λ r. length r.outcome.sends ≤ 1024) kept.now }
    ensures { IfOk result (λ inboxes. AreInboxesNow A.meaning world.now inboxes) }
{
    let _managers = world.managers();
    let letters = letters_of(alloc, kept)?;
    let precedence = Precedence {
        seed: world.parameters().seed,
        sent: world.now(),
        urgent: world.urgent(),
    };
    Inboxes::of(alloc, &letters, &precedence)
}

/// Adds what all sampled.
fn add_rows<A>(rows: &mut Vec<Row>, at: Moment, reports: &[Report<A>]) -> Result<(), Memory> {
    for report in reports {
        for sample in report.outcome.samples.as_slice() {
            rows.push(Row {
                at,
                actor: report.id,
                probe: sample.probe,
                value: sample.value,
            })?;
        }
    }
    Ok(())
}

/// Lets all act that are scheduled at the moment that is entered, and closes it, unless somebody shows a
/// fault. What they sample is added.
pub fn close<A: Actor + Drop, G: Agenda + Drop>(
    alloc: Global,
    world: &mut World<A, G>,
    rows: &mut Vec<Row>,
) -> Result<Option<Fault>, Memory>
    requires { world.old.phase ≡ phase.Entered }
    ensures { IfOk result (λ fault. fault ≡ None → world.new.phase ≡ phase.Closed) }
{
    let at = world.now();
    let all = reports(alloc, world)?;
    match settle(
        alloc,
        Items::of(all),
        at,
        world.next_id(),
        world.max_actors(),
    )? {
        Settled::Faulted { actor, code } => Ok(Some(Fault { actor, code })),
        Settled::Settled {
            kept,
            born,
            letters,
            retired,
        } => {
            add_rows(rows, at, kept.as_slice())?;
            let inboxes = inboxes_of(alloc, world, kept.as_slice())?;
            let settled = Settled::Settled {
                kept,
                born,
                letters,
                retired,
            };
            world.close(settled, inboxes)?;
            Ok(None)
        }
    }
}

/// What comes after the moment that closed.
fn next_moment<A: Actor + Drop, G: Agenda + Drop>(world: &World<A, G>) -> Next
    requires { world.now.phase ≡ phase.Closed }
    ensures { (to : Moment) → result ≡ next.Enters to → what_comes_next world.now.one world.now.moment ≡ next.Enters to }
{
    let now = world.now();
    let Some(diasca) = now.diasca.checked_add(1) else {
        return Next::Ends(Ending::DiascaLimit);
    };
    if world.pending() {
        return if diasca == world.parameters().diasca_limit {
            Next::Ends(Ending::DiascaLimit)
        } else {
            Next::Enters(Moment {
                tick: now.tick,
                diasca,
            })
        };
    }
    match world.least() {
        None => Next::Ends(Ending::Exhausted),
        Some(tick) if world.parameters().last_tick < tick => Next::Ends(Ending::TickLimit),
        Some(tick) => Next::Enters(Moment { tick, diasca: 0 }),
    }
}

/// Enters a moment and closes it. The answer is what comes after it.
pub fn pass<A: Actor + Drop, G: Agenda + Drop>(
    alloc: Global,
    world: &mut World<A, G>,
    at: Moment,
    rows: &mut Vec<Row>,
) -> Result<Next, Memory>
    requires { CanEnter world.old at }
    ensures { IfOk result (λ after. (to : Moment) → after ≡ next.Enters to → CanEnter world.new to) }
{
    world.enter(at)?;
    match close(alloc, world, rows)? {
        Some(Fault { actor, code }) => Ok(Next::Ends(Ending::Fault { actor, code })),
        None => Ok(next_moment(world)),
    }
}
