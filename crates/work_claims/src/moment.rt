ghost use Rattle.std.specs.Prelude.{◌≡◌, ◌<◌, ◌≤◌, ℕ, [], true, length, replicate, slice_index, IfOk};
ghost use Rattle.std.specs.List.Sorted.{IsNonDecreasingBy, IsPermutation};
ghost use Rattle.sim_base.specs.declared.ids.ActorId.{ActorId};
ghost use Rattle.inbox_order.specs.Inboxes.{inbox_of};
ghost use Rattle.quiescence.specs.Joint.{new_hand};
ghost use Rattle.work_claims.specs.Collecting.{inbox_in};
ghost use Rattle.work_claims.specs.Harvest.{IsClosing, IsHarvest};
ghost use Rattle.work_claims.specs.Placed.{FitsRound, reports_at, scheduled_at};
ghost use Rattle.work_claims.specs.Together.{AllGathered, IsReady, Worked};

use crate::act_together::act_together;
use crate::acted::{Acted, Collected};
use crate::blocks::Blocks;
use crate::collect_together::collect_together;
use crate::harvest::Harvest;
use crate::scene::Scene;
use crate::sending::MANAGERS;
use actor_trait::Actor;
use inbox_order::Inboxes;
use local_manager::Room;
use manager_tree::Tree;
use quiescence::{Closed, Hand, Round};
use sim_base::{Gate, Items, ManagerId, Memory};
use sim_model::Report;
use std::alloc::Global;
use std::thread::Threads;

/// How many actors are scheduled at each manager; 0 where there is no manager.
fn count_scheduled<A: Actor, W: Scene<A>>(world: &W) -> [u32; MANAGERS]
    requires entered { (W.placed world.now).entered ≡ true }
    ensures wide { length result ≡ 16 }
    ensures each { (m : ℕ) → m < (W.placed world.now).managers → slice_index result m ≡ length (scheduled_at (W.placed world.now) m) }
{
    let mut counts = [0; MANAGERS];
    for m in 0..world.managers() {
        counts[m as usize] = world.scheduled(ManagerId(m)).len() as u32;
    }
    counts
}

/// The round of a moment, with its hands. Err is want of memory.
fn open<A: Actor, W: Scene<A>>(
    alloc: Global,
    words: Vec<u64>,
    world: &W,
    tree: &Tree,
    hands: u32,
) -> Result<(Round, Vec<Hand>), Memory>
    requires entered { (W.placed world.now).entered ≡ true }
    requires somebody { 1 ≤ length (W.placed world.now).world.scheduled }
    requires leaves { tree.now.leaves ≡ (W.placed world.now).managers }
    requires least_hands { 1 ≤ hands }
    requires most_hands { hands ≤ 64 }
    ensures fits { IfOk result (λ r. FitsRound (W.placed world.now) r.0.shape) }
    ensures hands { IfOk result (λ r. r.0.shape.hands ≡ hands) }
    ensures new { IfOk result (λ r. r.1.items ≡ replicate hands (new_hand r.0)) }
{
    let counts = count_scheduled(world);
    Round::open_on(
        alloc,
        words,
        tree,
        &counts[..world.managers() as usize],
        hands,
    )
}

/// Whether the reports ascend by actor, as those of one hand at one manager do.
fn ascends<A>(reports: &[Report<A>]) -> bool
    ensures { result ≡ true → IsNonDecreasingBy (λ r. r.id.0) reports.now }
{
    reports.is_sorted_by_key(|report| report.id.0)
}

/// The reports, ascending by actor. What ascends already is handed on as it is. Err is want of memory.
fn sorted<A: Drop>(reports: Items<Report<A>>) -> Result<Items<Report<A>>, Memory>
    ensures permutation { IfOk result (λ sorted. IsPermutation reports sorted) }
    ensures ascending { IfOk result (λ sorted. IsNonDecreasingBy (λ r. r.id.0) sorted) }
{
    if ascends(reports.as_slice()) {
        return Ok(reports);
    }
    let mut list = reports.into_vec();
    list.sort_by_key(|report| report.id.0)?;
    Ok(Items::of(list))
}

/// The hand of the whole weight, and the reports in order. Err is want of memory.
fn in_order<A: Actor + Drop, W: Scene<A>>(
    world: &W,
    round: &Round,
    acted: Acted<A>,
) -> Result<(Hand, Items<Report<A>>), Memory>
    requires entered { (W.placed world.now).entered ≡ true }
    requires fits { FitsRound (W.placed world.now) round.now.shape }
    requires worked { Worked A.meaning (W.placed world.now) round.now round.now.shape.hands acted }
    ensures ready { IfOk result (λ r. IsReady A.meaning (W.placed world.now) round.now r.1 r.0) }
    ensures reports { IfOk result (λ r. r.1 ≡ reports_at A.meaning (W.placed world.now)) }
{
    let _managers = world.managers();
    let _hands = round.hands();
    let Acted {
        hand,
        reports,
        short,
    } = acted;
    if short {
        return Err(Memory);
    }
    hand.learn();
    let reports = sorted(reports)?;
    Ok((hand, reports))
}

/// All parts as one. One part is taken as it is. Err is want of memory.
fn join(alloc: Global, parts: Items<Inboxes>) -> Result<Inboxes, Memory>
    ensures { IfOk result (λ inboxes. (to : ActorId) → inbox_of inboxes to ≡ inbox_in parts to) }
{
    if parts.len() == 1 {
        if let Some(only) = parts.into_vec().pop() {
            return Ok(only);
        }
        unreachable!()
    }
    Inboxes::join(alloc, parts)
}

/// Ends the round, which is over. Err is want of memory.
fn finish<A: Actor, W: Scene<A>>(
    alloc: Global,
    world: &W,
    reports: &[Report<A>],
    round: Round,
    collected: Collected,
) -> Result<(Closed, Items<Inboxes>), Memory>
    requires fits { FitsRound (W.placed world.now) round.shape }
    requires gathered { AllGathered A.meaning (W.placed world.now) round reports.now collected }
    requires reports { reports.now ≡ reports_at A.meaning (W.placed world.now) }
    ensures closed { IfOk result (λ r. IsClosing A.meaning (W.placed world.now) r.0) }
    ensures parts { IfOk result (λ r. r.1 ≡ collected.inboxes) }
{
    let _ = (world.managers(), reports.len());
    let Collected { hand, inboxes, .. } = collected;
    let mut hands = Vec::with_capacity(alloc, 1)?;
    hands.push(hand)?;
    match round.finish(hands) {
        Ok(closed) => Ok((closed, inboxes)),
        Err(_) => unreachable!(),
    }
}

/// One moment by so many hands, 1 to 64, over a tree whose leaves are the managers of the world. Somebody
/// is scheduled. Each hand acts and collects in a thread of its own where one can be made, and else on
/// the calling thread; one hand alone starts no thread. Whatever the order of their steps, Ok is what one
/// thread would have made, and the round is closed. Err is want of memory, and comes of nothing else.
pub fn crew<R: Threads + Sync, A: Actor + Send + Sync + Drop, W: Scene<A> + Sync, T: Gate + Sync>(
    rt: &R,
    alloc: Global,
    world: &W,
    tree: &Tree,
    hands: u32,
    gate: &T,
) -> Result<Harvest<A>, Memory>
    requires entered { (W.placed world.now).entered ≡ true }
    requires somebody { 1 ≤ length (W.placed world.now).world.scheduled }
    requires leaves { tree.now.leaves ≡ (W.placed world.now).managers }
    requires least_hands { 1 ≤ hands }
    requires most_hands { hands ≤ 64 }
    ensures { IfOk result (IsHarvest A.meaning (W.placed world.now)) }
{
    crew_in(rt, alloc, Blocks::new(alloc), world, tree, hands, gate)
}

/// The same, in blocks that earlier moments had. What they hold doesn't matter, but that there are no
/// reports.
pub fn crew_in<
    R: Threads + Sync,
    A: Actor + Send + Sync + Drop,
    W: Scene<A> + Sync,
    T: Gate + Sync,
>(
    rt: &R,
    alloc: Global,
    blocks: Blocks<A>,
    world: &W,
    tree: &Tree,
    hands: u32,
    gate: &T,
) -> Result<Harvest<A>, Memory>
    requires room { blocks.room.reports.items ≡ [] }
    requires entered { (W.placed world.now).entered ≡ true }
    requires somebody { 1 ≤ length (W.placed world.now).world.scheduled }
    requires leaves { tree.now.leaves ≡ (W.placed world.now).managers }
    requires least_hands { 1 ≤ hands }
    requires most_hands { hands ≤ 64 }
    ensures { IfOk result (IsHarvest A.meaning (W.placed world.now)) }
{
    let _managers = world.managers();
    let Blocks { words, room } = blocks;
    let Room { reports, inboxes } = room;
    let (round, hands) = open(alloc, words, world, tree, hands)?;
    let acted = act_together(rt, alloc, reports, world, &round, hands, gate)?;
    let (hand, reports) = in_order(world, &round, acted)?;
    let collected = collect_together(rt, alloc, inboxes, world, reports.as_slice(), &round, hand)?;
    let (closed, parts) = finish(alloc, world, reports.as_slice(), round, collected)?;
    let inboxes = join(alloc, parts)?;
    Ok(Harvest {
        closed,
        reports,
        inboxes,
    })
}
