ghost use Rattle.std.specs.Prelude.{◌≡◌, ◌++◌, ℕ, ◌+◌, ◌<◌, ◌≤◌, true, false, slice_index_or, vec_len, IfOk};
ghost use Rattle.std.specs.List.{All};
ghost use Rattle.quiescence.specs.Answers.{NoDuty};
ghost use Rattle.work_claims.specs.Placed.{FitsRound};
ghost use Rattle.work_claims.specs.Together.{AllGathered, Gathered, Helped, IsReady, Phased};

use crate::acted::Collected;
use crate::collecting::{collect_in, collect_phase};
use crate::scene::Scene;
use crate::seats::{Seat, seats_of};
use actor_trait::Actor;
use inbox_order::Inboxes;
use quiescence::{Hand, Round};
use sim_base::{Items, Memory};
use sim_model::Report;
use std::alloc::Global;
use std::thread;
use std::thread::Threads;

/// The collect phase of a hand.
fn collect_seat<A: Actor, W: Scene<A>>(
    alloc: Global,
    world: &W,
    reports: &[Report<A>],
    round: &Round,
    seat: Seat,
) -> Collected
    requires entered { (W.placed world.now).entered ≡ true }
    requires fits { FitsRound (W.placed world.now) round.now.shape }
    requires of { seat.hand.round ≡ round.now }
    requires no_duty { NoDuty seat.hand.account }
    ensures { Phased A.meaning (W.placed world.now) round.now reports.now seat.hand result }
{
    collect_phase(alloc, world, reports, round, seat.hand, seat.number)
}

/// The collect phases of hands, side by side. Err is want of memory.
fn collect_seats<R: Threads + Sync, A: Actor + Sync, W: Scene<A> + Sync>(
    rt: &R,
    alloc: Global,
    world: &W,
    reports: &[Report<A>],
    round: &Round,
    seats: Vec<Seat>,
) -> Result<Vec<Collected>, Memory>
    requires entered { (W.placed world.now).entered ≡ true }
    requires fits { FitsRound (W.placed world.now) round.now.shape }
    requires ready { All (λ s. (s.hand.round ≡ round.now) × NoDuty s.hand.account) seats.items }
    ensures count { IfOk result (λ all. vec_len all ≡ vec_len seats) }
    ensures each { IfOk result (λ all. (i : ℕ) (s d : _) → i < vec_len all
        → Phased A.meaning (W.placed world.now) round.now reports.now (slice_index_or seats.items i s).hand (slice_index_or all.items i d)) }
{
    match thread::map_vec(
        rt,
        seats,
        &|seat: Seat| { collect_seat(alloc, world, reports, round, seat) },
    ) {
        Ok(all) => Ok(all),
        Err(_) => Err(Memory),
    }
}

/// What one has collected and what the others have, as one. Err is want of memory.
fn unite<A: Actor, W: Scene<A>>(
    world: &W,
    reports: &[Report<A>],
    round: &Round,
    first: Collected,
    others: Vec<Collected>,
) -> Result<Collected, Memory>
    requires fits { FitsRound (W.placed world.now) round.now.shape }
    requires first { Gathered A.meaning (W.placed world.now) round.now 1 reports.now first }
    requires others { All (Helped A.meaning (W.placed world.now) round.now reports.now) others.items }
    ensures { IfOk result (Gathered A.meaning (W.placed world.now) round.now (1 + vec_len others) reports.now) }
{
    let _ = (world.managers(), reports.len());
    let Collected {
        mut hand,
        inboxes,
        mut short,
    } = first;
    let mut inboxes = inboxes.into_vec();
    for collected in others {
        let Collected {
            hand: other,
            inboxes: more,
            short: also,
        } = collected;
        round.unite(&mut hand, other);
        short = short | also;
        inboxes.append(&mut more.into_vec())?;
    }
    Ok(Collected {
        hand,
        inboxes: Items::of(inboxes),
        short,
    })
}

/// Adds more parts to those that there are. Err is want of memory.
fn joined(parts: Items<Inboxes>, more: Items<Inboxes>) -> Result<Items<Inboxes>, Memory>
    ensures { IfOk result (λ all. all ≡ parts ++ more) }
{
    if parts.is_empty() {
        return Ok(more);
    }
    let mut all = parts.into_vec();
    all.append(&mut more.into_vec())?;
    Ok(Items::of(all))
}

/// The hand of the whole weight is dealt to all hands anew, and they collect side by side. Err is want of
/// memory.
fn collect_dealt<R: Threads + Sync, A: Actor + Sync, W: Scene<A> + Sync>(
    rt: &R,
    alloc: Global,
    world: &W,
    reports: &[Report<A>],
    round: &Round,
    hand: Hand,
) -> Result<Collected, Memory>
    requires entered { (W.placed world.now).entered ≡ true }
    requires fits { FitsRound (W.placed world.now) round.now.shape }
    requires several { 2 ≤ round.now.shape.hands }
    requires ready { IsReady A.meaning (W.placed world.now) round.now reports.now hand }
    ensures { IfOk result (Gathered A.meaning (W.placed world.now) round.now round.now.shape.hands reports.now) }
{
    let mut hands = Vec::with_capacity(alloc, 1)?;
    hands.push(hand)?;
    let hands = round.regroup(hands)?;
    let seats = seats_of(alloc, hands)?;
    let mut all = collect_seats(rt, alloc, world, reports, round, seats)?;
    let first = all.remove(0);
    let collected = unite(world, reports, round, first, all)?;
    Ok(collected)
}

/// The collect phase of the whole, after which each manager is collected. Err is want of memory.
fn collect_last<A: Actor, W: Scene<A>>(
    alloc: Global,
    room: Inboxes,
    world: &W,
    reports: &[Report<A>],
    round: &Round,
    before: Collected,
) -> Result<Collected, Memory>
    requires entered { (W.placed world.now).entered ≡ true }
    requires fits { FitsRound (W.placed world.now) round.now.shape }
    requires gathered { Gathered A.meaning (W.placed world.now) round.now round.now.shape.hands reports.now before }
    requires not_short { before.short ≡ false }
    ensures { IfOk result (AllGathered A.meaning (W.placed world.now) round.now reports.now) }
{
    let Collected { hand, inboxes, .. } = before;
    let Collected {
        hand,
        inboxes: more,
        short,
    } = collect_in(alloc, room, world, reports, round, hand, 0);
    if short {
        return Err(Memory);
    }
    Ok(Collected {
        hand,
        inboxes: joined(inboxes, more)?,
        short,
    })
}

/// All letters are collected, by as many hands as the round was opened with, side by side. One hand
/// collects on the calling thread, and isn't dealt anew. Err is want of memory.
pub(crate) fn collect_together<R: Threads + Sync, A: Actor + Sync, W: Scene<A> + Sync>(
    rt: &R,
    alloc: Global,
    room: Inboxes,
    world: &W,
    reports: &[Report<A>],
    round: &Round,
    hand: Hand,
) -> Result<Collected, Memory>
    requires entered { (W.placed world.now).entered ≡ true }
    requires fits { FitsRound (W.placed world.now) round.now.shape }
    requires some { 1 ≤ round.now.shape.hands }
    requires ready { IsReady A.meaning (W.placed world.now) round.now reports.now hand }
    ensures { IfOk result (AllGathered A.meaning (W.placed world.now) round.now reports.now) }
{
    if round.hands() == 1 {
        let before = Collected {
            hand,
            inboxes: Items::new(alloc),
            short: false,
        };
        let all = collect_last(alloc, room, world, reports, round, before)?;
        return Ok(all);
    }
    let before = collect_dealt(rt, alloc, world, reports, round, hand)?;
    if before.short {
        return Err(Memory);
    }
    let all = collect_last(alloc, room, world, reports, round, before)?;
    Ok(all)
}
