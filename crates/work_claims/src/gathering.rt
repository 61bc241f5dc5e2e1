ghost use Rattle.std.specs.Prelude.{◌≡◌, ◌++◌, ◌≤◌, ◌^◌, ◌<◌, ℕ, [], ◌∷◌, cond, true, false, get_or, length, IfOk, OnOk};
ghost use Rattle.std.specs.List.{filter, list_any};
ghost use Rattle.sim_base.specs.declared.ids.ActorId.{ActorId};
ghost use Rattle.actor_trait.specs.InboxOrder.{inbox_order};
ghost use Rattle.sim_model.specs.Moment.{post};
ghost use Rattle.work_claims.specs.Collecting.{inbox_in};
ghost use Rattle.work_claims.specs.Letters.{is_calm, letters_sent};
ghost use Rattle.work_claims.specs.Placed.{precedence_of};

use crate::scene::Scene;
use crate::sending::MANAGERS;
use actor_trait::{Actor, Letter, Parcel, Precedence, fault_of};
use inbox_order::Inboxes;
use sim_base::{ActorId, Items, Memory};
use sim_model::Report;
use std::alloc::Global;

/// Adds a letter if it is wanted.
fn push_wanted(letters: &mut Vec<Letter>, letter: Letter, wanted: bool) -> Result<(), Memory>
    ensures { OnOk result (letters.new.items ≡ letters.old.items ++ (cond wanted (letter ∷ []) [])) }
{
    if wanted {
        letters.push(letter)?;
    }
    Ok(())
}

/// Adds those letters of one sender that go to the actors of these managers.
fn gather_sends<A: Actor, W: Scene<A>>(
    letters: &mut Vec<Letter>,
    world: &W,
    from: ActorId,
    parcels: &[Parcel],
    mine: &[bool; MANAGERS],
) -> Result<(), Memory>
    requires { length parcels.now < 2 ^ 32 }
    ensures { OnOk result (letters.new.items ≡ letters.old.items
        ++ filter (λ l. get_or mine.now ((W.placed world.now).route l.to) false) (post from 0 parcels.now)) }
{
    let _managers = world.managers();
    let mut serial = 0;
    for parcel in parcels {
        let letter = Letter {
            to: parcel.to,
            from,
            serial,
            payload: parcel.payload,
        };
        push_wanted(letters, letter, mine[world.route(parcel.to).0 as usize])?;
        serial += 1;
    }
    Ok(())
}

/// Adds those letters of a report that go to the actors of these managers: none of one that shows a
/// fault.
fn gather_report<A: Actor, W: Scene<A>>(
    letters: &mut Vec<Letter>,
    world: &W,
    report: &Report<A>,
    mine: &[bool; MANAGERS],
) -> Result<(), Memory>
    ensures { OnOk result (letters.new.items ≡ letters.old.items
        ++ filter (λ l. get_or mine.now ((W.placed world.now).route l.to) false) (letters_sent A.meaning (W.placed world.now) (report.now ∷ []))) }
{
    if report.outcome.sends.is_empty() || fault_of(&report.outcome, world.now()).is_some() {
        return Ok(());
    }
    gather_sends(
        letters,
        world,
        report.id,
        report.outcome.sends.as_slice(),
        mine,
    )
}

/// The letters of all reports that go to the actors of these managers. One pass over the reports serves
/// for all of them.
fn gather<A: Actor, W: Scene<A>>(
    mut letters: Vec<Letter>,
    world: &W,
    reports: &[Report<A>],
    mine: &[bool; MANAGERS],
) -> Result<Vec<Letter>, Memory>
    ensures { IfOk result (λ all. all.items
        ≡ letters.items ++ filter (λ l. get_or mine.now ((W.placed world.now).route l.to) false) (letters_sent A.meaning (W.placed world.now) reports.now)) }
{
    letters.reserve(reports.len())?;
    for report in reports {
        gather_report(&mut letters, world, report, mine)?;
    }
    Ok(letters)
}

/// The ordered inboxes of letters, as one part, in room that others had. Err is want of memory.
fn part_of(
    alloc: Global,
    mut room: Inboxes,
    letters: Vec<Letter>,
    precedence: &Precedence<'_>,
) -> Result<Items<Inboxes>, Memory>
    ensures { IfOk result (λ parts. (to : ActorId) → inbox_in parts to ≡ inbox_order letters.items to precedence.now) }
{
    room.renew_with(alloc, letters, precedence)?;
    let mut parts = Items::new(alloc);
    parts.add(room)?;
    Ok(parts)
}

/// Whether there is one of these managers.
fn takes_any(mine: &[bool; MANAGERS]) -> bool
    ensures { result ≡ list_any (λ is. is) mine.now }
{
    mine.iter().any(|is| *is)
}

/// The ordered inboxes of the actors of these managers, as one part, or no part where there is no such
/// manager. Their keys are made here. Err is want of memory.
pub(crate) fn inboxes_of<A: Actor, W: Scene<A>>(
    alloc: Global,
    mut room: Inboxes,
    world: &W,
    reports: &[Report<A>],
    mine: &[bool; MANAGERS],
) -> Result<Items<Inboxes>, Memory>
    requires entered { (W.placed world.now).entered ≡ true }
    ensures { IfOk result (λ parts. (to : ActorId) → inbox_in parts to
        ≡ cond (get_or mine.now ((W.placed world.now).route to) false)
        (inbox_order (letters_sent A.meaning (W.placed world.now) reports.now) to (precedence_of (W.placed world.now))) []) }
{
    if !takes_any(mine) {
        return Ok(Items::new(alloc));
    }
    let letters = gather(room.take_room(alloc), world, reports, mine)?;
    let parts = part_of(alloc, room, letters, &world.precedence())?;
    Ok(parts)
}
