ghost use Rattle.std.specs.Prelude.{◌≡◌, true, false};
ghost use Rattle.quiescence.specs.Answers.{NoDuty};
ghost use Rattle.work_claims.specs.Collecting.{AreInboxesTo, CollectedAll, Collects};
ghost use Rattle.work_claims.specs.Placed.{FitsRound};

use crate::acted::Collected;
use crate::gathering::inboxes_of;
use crate::scene::Scene;
use crate::taking::take_mine;
use crate::turns::try_all;
use actor_trait::Actor;
use inbox_order::Inboxes;
use quiescence::{Hand, Round};
use sim_base::Items;
use sim_model::Report;
use std::alloc::Global;

/// Tries the turn of each manager, at the home manager of the hand first, which is its number modulo the
/// managers, and then at the others in cyclic order. It puts the letters of the reports to the actors of
/// those that it comes to collect in inbox order, and then acknowledges them. It stops where memory is
/// wanted, before it acknowledges anything; else `short` is false.
pub fn collect_phase<A: Actor, W: Scene<A>>(
    alloc: Global,
    world: &W,
    reports: &[Report<A>],
    round: &Round,
    hand: Hand,
    number: u32,
) -> Collected
    requires entered { (W.placed world.now).entered ≡ true }
    requires of { hand.round ≡ round.now }
    requires fits { FitsRound (W.placed world.now) round.now.shape }
    requires no_duty { NoDuty hand.account }
    ensures of { result.hand.round ≡ round.now }
    ensures collects { Collects round.now.shape hand.account result.hand.account }
    ensures collected { result.short ≡ false → CollectedAll round.now.shape hand.account result.hand.account }
    ensures inboxes { result.short ≡ false
        → AreInboxesTo A.meaning (W.placed world.now) reports.now hand.account result.hand.account result.inboxes }
    ensures no_duty { NoDuty result.hand.account }
{
    collect_in(
        alloc,
        Inboxes::new(alloc),
        world,
        reports,
        round,
        hand,
        number,
    )
}

/// The same, with the inboxes in room that others had.
pub(crate) fn collect_in<A: Actor, W: Scene<A>>(
    alloc: Global,
    room: Inboxes,
    world: &W,
    reports: &[Report<A>],
    round: &Round,
    hand: Hand,
    number: u32,
) -> Collected
    requires entered { (W.placed world.now).entered ≡ true }
    requires of { hand.round ≡ round.now }
    requires fits { FitsRound (W.placed world.now) round.now.shape }
    requires no_duty { NoDuty hand.account }
    ensures of { result.hand.round ≡ round.now }
    ensures collects { Collects round.now.shape hand.account result.hand.account }
    ensures collected { result.short ≡ false → CollectedAll round.now.shape hand.account result.hand.account }
    ensures inboxes { result.short ≡ false
        → AreInboxesTo A.meaning (W.placed world.now) reports.now hand.account result.hand.account result.inboxes }
    ensures no_duty { NoDuty result.hand.account }
{
    let _managers = world.managers();
    let mut hand = hand;
    hand.learn();
    let mine = try_all(round, &mut hand, number);
    match inboxes_of(alloc, room, world, reports, &mine) {
        Ok(inboxes) => {
            take_mine(round, &mut hand, &mine);
            Collected {
                hand,
                inboxes,
                short: false,
            }
        }
        Err(_) => Collected {
            hand,
            inboxes: Items::new(alloc),
            short: true,
        },
    }
}
