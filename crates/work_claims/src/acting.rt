ghost use Rattle.std.specs.Prelude.{◌≡◌, ◌≢◌, ℕ, ◌≤◌, ◌<◌, [], true, false, ◌⊎◌, length, OnOk, IfOk};
ghost use Rattle.quiet_core.specs.Account.{has_met, mark, reported};
ghost use Rattle.work_claims.specs.Acting.{AtRest, Ended, IsNew, Keeps, OneOpen, Others, Tells, frees};
ghost use Rattle.work_claims.specs.Placed.{FitsRound, IsMeant, IsPlaced, id_at, scheduled_at};

use crate::acted::Acted;
use crate::alone::act_alone;
use crate::pace::Pace;
use crate::publishing::{publish, report_done};
use crate::scene::Scene;
use crate::sending::Sending;
use actor_trait::Actor;
use quiescence::{Claim, Hand, Round};
use sim_base::{Gate, Items, ManagerId, Memory};
use sim_model::Report;
use std::alloc::Global;

/// What comes of the event of a scheduled actor. Err is want of memory.
fn report_of<A: Actor, W: Scene<A>>(
    alloc: Global,
    world: &W,
    m: ManagerId,
    i: u32,
) -> Result<Report<A>, Memory>
    requires entered { (W.placed world.now).entered ≡ true }
    requires manager { m.0 < (W.placed world.now).managers }
    requires place { i < length (scheduled_at (W.placed world.now) m.0) }
    ensures id { IfOk result (λ report. report.id ≡ id_at (W.placed world.now) m.0 i) }
    ensures meant { IfOk result (λ report. IsMeant A.meaning (W.placed world.now) report) }
{
    let context = world.context_of(m, i);
    let event = world.event_of(m, i);
    let outcome = world.state_of(m, i).act(alloc, &context, &event)?;
    Ok(Report {
        id: context.me,
        outcome,
    })
}

/// Lets a claimed actor act, and reports it. Err is want of memory: the actor is open then.
fn act_claimed<A: Actor + Drop, W: Scene<A>>(
    alloc: Global,
    world: &W,
    round: &Round,
    hand: &mut Hand,
    m: ManagerId,
    i: u32,
    reports: &mut Items<Report<A>>,
) -> Result<(), Memory>
    requires of { hand.old.round ≡ round.now }
    requires placed { IsPlaced (W.placed world.now) }
    requires fits { FitsRound (W.placed world.now) round.now.shape }
    requires manager { m.0 < (W.placed world.now).managers }
    requires place { i < length (scheduled_at (W.placed world.now) m.0) }
    requires weight { 1 ≤ hand.old.account.weight }
    requires claimed { OneOpen m.0 i hand.old.account }
    requires tells { Tells A.meaning (W.placed world.now) reports.old hand.old.account }
    ensures of { hand.new.round ≡ round.now }
    ensures keeps { Keeps hand.old.account hand.new.account }
    ensures exhausted { hand.new.account.exhausted ≡ hand.old.account.exhausted }
    ensures others { Others m.0 i hand.old.account hand.new.account }
    ensures tells { Tells A.meaning (W.placed world.now) reports.new hand.new.account }
    ensures done { OnOk result (mark hand.new.account m.0 i ≡ reported) }
    ensures rest { OnOk result (AtRest hand.new.account) }
{
    let report = report_of(alloc, world, m, i)?;
    let sending = Sending::of(world, &report.outcome);
    reports.add(report)?;
    publish(round, hand, m, i, &sending);
    report_done(round, hand, m, i);
    Ok(())
}

/// One claim: false where all actors of the manager were claimed before. Err is want of memory.
pub(crate) fn act_once<A: Actor + Drop, W: Scene<A>, T: Gate>(
    alloc: Global,
    world: &W,
    round: &Round,
    pace: &mut Pace<'_, T>,
    hand: &mut Hand,
    m: ManagerId,
    reports: &mut Items<Report<A>>,
) -> Result<bool, Memory>
    requires of { hand.old.round ≡ round.now }
    requires placed { IsPlaced (W.placed world.now) }
    requires fits { FitsRound (W.placed world.now) round.now.shape }
    requires manager { m.0 < (W.placed world.now).managers }
    requires weight { 1 ≤ hand.old.account.weight }
    requires claims { hand.old.account.collecting ≡ false }
    requires not_met { has_met hand.old.account m.0 ≡ false }
    requires rest { AtRest hand.old.account }
    requires tells { Tells A.meaning (W.placed world.now) reports.old hand.old.account }
    ensures of { hand.new.round ≡ round.now }
    ensures keeps { Keeps hand.old.account hand.new.account }
    ensures tells { Tells A.meaning (W.placed world.now) reports.new hand.new.account }
    ensures rest { OnOk result (AtRest hand.new.account) }
    ensures ended { IfOk result (λ more. more ≡ false → has_met hand.new.account m.0 ≡ true) }
    ensures not_met { IfOk result (λ more. more ≡ true → has_met hand.new.account m.0 ≡ false) }
    ensures fewer { IfOk result (λ more. more ≡ true
        → frees round.now.shape hand.new.account m.0 < frees round.now.shape hand.old.account m.0) }
    ensures elsewhere { (k : ℕ) → k ≢ m.0 → has_met hand.new.account k ≡ has_met hand.old.account k }
{
    pace.pass();
    match round.claim(hand, m) {
        Claim::Exhausted(_) => Ok(false),
        Claim::Claimed(i) => {
            act_claimed(alloc, world, round, hand, m, i, reports)?;
            Ok(true)
        }
    }
}

/// All claims at one manager, until it is exhausted. Err is want of memory.
pub(crate) fn act_manager<A: Actor + Drop, W: Scene<A>, T: Gate>(
    alloc: Global,
    world: &W,
    round: &Round,
    pace: &mut Pace<'_, T>,
    hand: &mut Hand,
    m: ManagerId,
    reports: &mut Items<Report<A>>,
) -> Result<(), Memory>
    requires of { hand.old.round ≡ round.now }
    requires placed { IsPlaced (W.placed world.now) }
    requires fits { FitsRound (W.placed world.now) round.now.shape }
    requires manager { m.0 < (W.placed world.now).managers }
    requires weight { 1 ≤ hand.old.account.weight }
    requires claims { hand.old.account.collecting ≡ false }
    requires not_met { has_met hand.old.account m.0 ≡ false }
    requires rest { AtRest hand.old.account }
    requires tells { Tells A.meaning (W.placed world.now) reports.old hand.old.account }
    ensures of { hand.new.round ≡ round.now }
    ensures keeps { Keeps hand.old.account hand.new.account }
    ensures tells { Tells A.meaning (W.placed world.now) reports.new hand.new.account }
    ensures rest { OnOk result (AtRest hand.new.account) }
    ensures ended { OnOk result (has_met hand.new.account m.0 ≡ true) }
    ensures elsewhere { (k : ℕ) → k ≢ m.0 → has_met hand.new.account k ≡ has_met hand.old.account k }
{
    while act_once(alloc, world, round, pace, hand, m, reports)? {}
    Ok(())
}

/// All claims at the managers of a range, in order. Err is want of memory.
fn act_range<A: Actor + Drop, W: Scene<A>, T: Gate>(
    alloc: Global,
    world: &W,
    round: &Round,
    pace: &mut Pace<'_, T>,
    hand: &mut Hand,
    range: (u32, u32),
    reports: &mut Items<Report<A>>,
) -> Result<(), Memory>
    requires of { hand.old.round ≡ round.now }
    requires placed { IsPlaced (W.placed world.now) }
    requires fits { FitsRound (W.placed world.now) round.now.shape }
    requires range { (range.0 ≤ range.1) × (range.1 ≤ (W.placed world.now).managers) }
    requires weight { 1 ≤ hand.old.account.weight }
    requires claims { hand.old.account.collecting ≡ false }
    requires not_met { (k : ℕ) → range.0 ≤ k → k < range.1 → has_met hand.old.account k ≡ false }
    requires rest { AtRest hand.old.account }
    requires tells { Tells A.meaning (W.placed world.now) reports.old hand.old.account }
    ensures of { hand.new.round ≡ round.now }
    ensures keeps { Keeps hand.old.account hand.new.account }
    ensures tells { Tells A.meaning (W.placed world.now) reports.new hand.new.account }
    ensures rest { OnOk result (AtRest hand.new.account) }
    ensures ended { OnOk result ((k : ℕ) → range.0 ≤ k → k < range.1 → has_met hand.new.account k ≡ true) }
    ensures elsewhere { (k : ℕ) → (k < range.0) ⊎ (range.1 ≤ k) → has_met hand.new.account k ≡ has_met hand.old.account k }
{
    for m in range.0..range.1 {
        act_manager(alloc, world, round, pace, hand, ManagerId(m), reports)?;
    }
    Ok(())
}

/// All claims at all managers, from the home manager on. Err is want of memory.
fn act_all<A: Actor + Drop, W: Scene<A>, T: Gate>(
    alloc: Global,
    world: &W,
    round: &Round,
    pace: &mut Pace<'_, T>,
    hand: &mut Hand,
    home: u32,
    reports: &mut Items<Report<A>>,
) -> Result<(), Memory>
    requires of { hand.old.round ≡ round.now }
    requires placed { IsPlaced (W.placed world.now) }
    requires fits { FitsRound (W.placed world.now) round.now.shape }
    requires home { home < (W.placed world.now).managers }
    requires weight { 1 ≤ hand.old.account.weight }
    requires claims { hand.old.account.collecting ≡ false }
    requires not_met { (k : ℕ) → has_met hand.old.account k ≡ false }
    requires rest { AtRest hand.old.account }
    requires tells { Tells A.meaning (W.placed world.now) reports.old hand.old.account }
    ensures of { hand.new.round ≡ round.now }
    ensures keeps { Keeps hand.old.account hand.new.account }
    ensures tells { Tells A.meaning (W.placed world.now) reports.new hand.new.account }
    ensures ended { OnOk result (Ended (W.placed world.now).managers hand.new.account) }
{
    let managers = world.managers();
    act_range(alloc, world, round, pace, hand, (home, managers), reports)?;
    act_range(alloc, world, round, pace, hand, (0, home), reports)
}

/// How many reports a hand asks room for before it acts: an equal share of all.
fn share_of(round: &Round) -> u32 {
    let mut scheduled = 0;
    for m in 0..round.managers() {
        scheduled += round.scheduled(ManagerId(m as u32));
    }
    scheduled / round.hands().max(1)
}

/// All claims of a hand: in the order of numbers where it works alone for several managers, and else from
/// its home manager on. Err is want of memory.
fn act_each<A: Actor + Drop, W: Scene<A>, T: Gate>(
    alloc: Global,
    world: &W,
    round: &Round,
    pace: &mut Pace<'_, T>,
    hand: &mut Hand,
    home: u32,
    reports: &mut Items<Report<A>>,
) -> Result<(), Memory>
    requires of { hand.old.round ≡ round.now }
    requires placed { IsPlaced (W.placed world.now) }
    requires fits { FitsRound (W.placed world.now) round.now.shape }
    requires home { home < (W.placed world.now).managers }
    requires weight { 1 ≤ hand.old.account.weight }
    requires claims { hand.old.account.collecting ≡ false }
    requires not_met { (k : ℕ) → has_met hand.old.account k ≡ false }
    requires rest { AtRest hand.old.account }
    requires tells { Tells A.meaning (W.placed world.now) reports.old hand.old.account }
    ensures of { hand.new.round ≡ round.now }
    ensures keeps { Keeps hand.old.account hand.new.account }
    ensures tells { Tells A.meaning (W.placed world.now) reports.new hand.new.account }
    ensures ended { OnOk result (Ended (W.placed world.now).managers hand.new.account) }
{
    if round.hands() == 1 && world.managers() > 1 {
        act_alone(alloc, world, round, pace, hand, share_of(round), reports)
    } else {
        act_all(alloc, world, round, pace, hand, home, reports)
    }
}

/// Claims actors and lets them act, at the home manager of the hand first, which is its number modulo
/// the managers, and then at the others in cyclic order, until all are claimed; the only hand of a round
/// in the order of numbers over all managers. Before each claim it passes the gate. The letters of an
/// actor are announced and posted, and then it is reported; none of an actor that shows a fault is. It
/// stops where memory is wanted; else `short` is false.
pub fn act_phase<A: Actor + Drop, W: Scene<A>, T: Gate>(
    alloc: Global,
    world: &W,
    round: &Round,
    hand: Hand,
    number: u32,
    gate: &T,
) -> Acted<A>
    requires entered { (W.placed world.now).entered ≡ true }
    requires of { hand.round ≡ round.now }
    requires fits { FitsRound (W.placed world.now) round.now.shape }
    requires new { IsNew (W.placed world.now).managers hand.account }
    ensures of { result.hand.round ≡ round.now }
    ensures keeps { Keeps hand.account result.hand.account }
    ensures tells { Tells A.meaning (W.placed world.now) result.reports result.hand.account }
    ensures ended { result.short ≡ false → Ended (W.placed world.now).managers result.hand.account }
{
    act_in(alloc, Vec::new(alloc), world, round, hand, number, gate)
}

/// The same, with the reports in room that others had.
pub(crate) fn act_in<A: Actor + Drop, W: Scene<A>, T: Gate>(
    alloc: Global,
    mut room: Vec<Report<A>>,
    world: &W,
    round: &Round,
    hand: Hand,
    number: u32,
    gate: &T,
) -> Acted<A>
    requires room { room.items ≡ [] }
    requires entered { (W.placed world.now).entered ≡ true }
    requires of { hand.round ≡ round.now }
    requires fits { FitsRound (W.placed world.now) round.now.shape }
    requires new { IsNew (W.placed world.now).managers hand.account }
    ensures of { result.hand.round ≡ round.now }
    ensures keeps { Keeps hand.account result.hand.account }
    ensures tells { Tells A.meaning (W.placed world.now) result.reports result.hand.account }
    ensures ended { result.short ≡ false → Ended (W.placed world.now).managers result.hand.account }
{
    let mut hand = hand;
    // A refusal is no fault: each report asks for its own room.
    let _ = room.reserve(share_of(round) as usize);
    let mut reports = Items::of(room);
    let mut pace = Pace::new(gate, number);
    let home = number % world.managers();
    hand.learn();
    let short = act_each(
        alloc,
        world,
        round,
        &mut pace,
        &mut hand,
        home,
        &mut reports,
    )
    .is_err();
    Acted {
        hand,
        reports,
        short,
    }
}
