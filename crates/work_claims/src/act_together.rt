ghost use Rattle.std.specs.Prelude.{◌≡◌, ◌+◌, ◌≤◌, [], true, replicate, vec_len, IfOk};
ghost use Rattle.std.specs.List.{All};
ghost use Rattle.quiescence.specs.Joint.{new_hand};
ghost use Rattle.work_claims.specs.Placed.{FitsRound};
ghost use Rattle.work_claims.specs.Together.{Worked};

use crate::acted::Acted;
use crate::acting::act_in;
use crate::scene::Scene;
use crate::seats::{Seat, seats_of};
use actor_trait::Actor;
use quiescence::{Hand, Round};
use sim_base::{Gate, Items, Memory};
use sim_model::Report;
use std::alloc::Global;
use std::thread;
use std::thread::Threads;

/// The act phase of a new hand, with its reports in room that others had.
fn act_seat_in<A: Actor + Drop, W: Scene<A>, T: Gate>(
    alloc: Global,
    room: Vec<Report<A>>,
    world: &W,
    round: &Round,
    seat: Seat,
    gate: &T,
) -> Acted<A>
    requires room { room.items ≡ [] }
    requires entered { (W.placed world.now).entered ≡ true }
    requires fits { FitsRound (W.placed world.now) round.now.shape }
    requires new { seat.hand ≡ new_hand round.now }
    ensures { Worked A.meaning (W.placed world.now) round.now 1 result }
{
    act_in(alloc, room, world, round, seat.hand, seat.number, gate)
}

/// The act phase of a new hand.
fn act_seat<A: Actor + Drop, W: Scene<A>, T: Gate>(
    alloc: Global,
    world: &W,
    round: &Round,
    seat: Seat,
    gate: &T,
) -> Acted<A>
    requires entered { (W.placed world.now).entered ≡ true }
    requires fits { FitsRound (W.placed world.now) round.now.shape }
    requires new { seat.hand ≡ new_hand round.now }
    ensures { Worked A.meaning (W.placed world.now) round.now 1 result }
{
    act_seat_in(alloc, Vec::new(alloc), world, round, seat, gate)
}

/// The act phases of new hands, side by side. Err is want of memory.
fn act_seats<R: Threads + Sync, A: Actor + Send + Sync + Drop, W: Scene<A> + Sync, T: Gate + Sync>(
    rt: &R,
    alloc: Global,
    world: &W,
    round: &Round,
    seats: Vec<Seat>,
    gate: &T,
) -> Result<Vec<Acted<A>>, Memory>
    requires entered { (W.placed world.now).entered ≡ true }
    requires fits { FitsRound (W.placed world.now) round.now.shape }
    requires new { All (λ s. s.hand ≡ new_hand round.now) seats.items }
    ensures count { IfOk result (λ all. vec_len all ≡ vec_len seats) }
    ensures each { IfOk result (λ all. All (Worked A.meaning (W.placed world.now) round.now 1) all.items) }
{
    match thread::map_vec(
        rt,
        seats,
        &|seat: Seat| { act_seat(alloc, world, round, seat, gate) },
    ) {
        Ok(all) => Ok(all),
        Err(_) => Err(Memory),
    }
}

/// What one has done and what the others have, as one. Err is want of memory.
fn unite<A: Actor + Drop, W: Scene<A>>(
    world: &W,
    round: &Round,
    first: Acted<A>,
    others: Vec<Acted<A>>,
) -> Result<Acted<A>, Memory>
    requires fits { FitsRound (W.placed world.now) round.now.shape }
    requires first { Worked A.meaning (W.placed world.now) round.now 1 first }
    requires others { All (Worked A.meaning (W.placed world.now) round.now 1) others.items }
    ensures { IfOk result (Worked A.meaning (W.placed world.now) round.now (1 + vec_len others)) }
{
    let _ = world;
    let Acted {
        mut hand,
        reports,
        mut short,
    } = first;
    let mut reports = reports.into_vec();
    for acted in others {
        let Acted {
            hand: other,
            reports: more,
            short: also,
        } = acted;
        round.unite(&mut hand, other);
        short = short | also;
        reports.append(&mut more.into_vec())?;
    }
    Ok(Acted {
        hand,
        reports: Items::of(reports),
        short,
    })
}

/// The act phases of all hands of a round, side by side, as one. One hand acts on the calling thread.
/// Err is want of memory.
pub(crate) fn act_together<
    R: Threads + Sync,
    A: Actor + Send + Sync + Drop,
    W: Scene<A> + Sync,
    T: Gate + Sync,
>(
    rt: &R,
    alloc: Global,
    room: Vec<Report<A>>,
    world: &W,
    round: &Round,
    mut hands: Vec<Hand>,
    gate: &T,
) -> Result<Acted<A>, Memory>
    requires room { room.items ≡ [] }
    requires entered { (W.placed world.now).entered ≡ true }
    requires fits { FitsRound (W.placed world.now) round.now.shape }
    requires some { 1 ≤ round.now.shape.hands }
    requires new { hands.items ≡ replicate round.now.shape.hands (new_hand round.now) }
    ensures { IfOk result (Worked A.meaning (W.placed world.now) round.now round.now.shape.hands) }
{
    let _managers = round.managers();
    if round.hands() == 1 {
        let Some(hand) = hands.pop() else {
            unreachable!()
        };
        let seat = Seat { hand, number: 0 };
        return Ok(act_seat_in(alloc, room, world, round, seat, gate));
    }
    let seats = seats_of(alloc, hands)?;
    let mut all = act_seats(rt, alloc, world, round, seats, gate)?;
    let Some(first) = all.pop() else {
        unreachable!()
    };
    let acted = unite(world, round, first, all)?;
    Ok(acted)
}
