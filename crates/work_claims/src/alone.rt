ghost use Rattle.std.specs.Prelude.{◌≡◌, ℕ, ◌<◌, ◌≤◌, true, false, get_or, IfSome, OnOk};
ghost use Rattle.quiet_core.specs.Account.{has_met};
ghost use Rattle.work_claims.specs.Acting.{AreMet, AtRest, Ended, Keeps, Tells};
ghost use Rattle.work_claims.specs.Placed.{FitsRound, IsPlaced};

use crate::acting::{act_manager, act_once};
use crate::pace::Pace;
use crate::scene::Scene;
use crate::sending::MANAGERS;
use actor_trait::Actor;
use quiescence::{Hand, Round};
use sim_base::{ActorId, Gate, Items, ManagerId, Memory};
use sim_model::Report;
use std::alloc::Global;

/// The next actor of a manager whose end isn't met, where this many of its scheduled were claimed.
fn next_of<A: Actor, W: Scene<A>>(
    world: &W,
    m: u32,
    claimed: &[usize; MANAGERS],
    met: &[bool; MANAGERS],
) -> Option<ActorId>
    requires manager { m < (W.placed world.now).managers }
    requires few { (W.placed world.now).managers ≤ 16 }
    ensures not_met { IfSome result (λ _. get_or met.now m false ≡ false) }
{
    if met[m as usize] {
        return None;
    }
    world
        .scheduled(ManagerId(m))
        .get(claimed[m as usize])
        .copied()
}

/// The manager whose next actor has the least number, of those whose end isn't met.
fn first_of<A: Actor, W: Scene<A>>(
    world: &W,
    claimed: &[usize; MANAGERS],
    met: &[bool; MANAGERS],
) -> Option<u32>
    ensures within { IfSome result (λ m. m < (W.placed world.now).managers) }
    ensures not_met { IfSome result (λ m. get_or met.now m false ≡ false) }
{
    let mut first = None;
    let mut least = ActorId(0);
    for m in 0..world.managers() {
        if let Some(id) = next_of(world, m, claimed, met) {
            if first.is_none() || id < least {
                first = Some(m);
                least = id;
            }
        }
    }
    first
}

/// So many claims in the order of numbers over all managers, or fewer where all are claimed. Err is want of
/// memory.
fn act_ascending<A: Actor + Drop, W: Scene<A>, T: Gate>(
    alloc: Global,
    world: &W,
    round: &Round,
    pace: &mut Pace<'_, T>,
    hand: &mut Hand,
    count: u32,
    met: &mut [bool; MANAGERS],
    reports: &mut Items<Report<A>>,
) -> Result<(), Memory>
    requires of { hand.old.round ≡ round.now }
    requires placed { IsPlaced (W.placed world.now) }
    requires fits { FitsRound (W.placed world.now) round.now.shape }
    requires weight { 1 ≤ hand.old.account.weight }
    requires claims { hand.old.account.collecting ≡ false }
    requires met { AreMet (W.placed world.now).managers met.old hand.old.account }
    requires rest { AtRest hand.old.account }
    requires tells { Tells A.meaning (W.placed world.now) reports.old hand.old.account }
    ensures of { hand.new.round ≡ round.now }
    ensures keeps { Keeps hand.old.account hand.new.account }
    ensures tells { Tells A.meaning (W.placed world.now) reports.new hand.new.account }
    ensures rest { OnOk result (AtRest hand.new.account) }
    ensures met { OnOk result (AreMet (W.placed world.now).managers met.new hand.new.account) }
{
    let mut claimed = [0; MANAGERS];
    for _claim in 0..count {
        let Some(m) = first_of(world, &claimed, met) else {
            return Ok(());
        };
        if act_once(alloc, world, round, pace, hand, ManagerId(m), reports)? {
            claimed[m as usize] = claimed[m as usize].saturating_add(1);
        } else {
            met[m as usize] = true;
        }
    }
    Ok(())
}

/// All claims that are left, manager by manager. Err is want of memory.
fn act_rest<A: Actor + Drop, W: Scene<A>, T: Gate>(
    alloc: Global,
    world: &W,
    round: &Round,
    pace: &mut Pace<'_, T>,
    hand: &mut Hand,
    met: &[bool; MANAGERS],
    reports: &mut Items<Report<A>>,
) -> Result<(), Memory>
    requires of { hand.old.round ≡ round.now }
    requires placed { IsPlaced (W.placed world.now) }
    requires fits { FitsRound (W.placed world.now) round.now.shape }
    requires weight { 1 ≤ hand.old.account.weight }
    requires claims { hand.old.account.collecting ≡ false }
    requires met { AreMet (W.placed world.now).managers met.now hand.old.account }
    requires rest { AtRest hand.old.account }
    requires tells { Tells A.meaning (W.placed world.now) reports.old hand.old.account }
    ensures of { hand.new.round ≡ round.now }
    ensures keeps { Keeps hand.old.account hand.new.account }
    ensures tells { Tells A.meaning (W.placed world.now) reports.new hand.new.account }
    ensures ended { OnOk result (Ended (W.placed world.now).managers hand.new.account) }
{
    for m in 0..world.managers() {
        if !met[m as usize] {
            act_manager(alloc, world, round, pace, hand, ManagerId(m), reports)?;
        }
    }
    Ok(())
}

/// All claims of a hand that works alone: in the order of numbers over all managers, so that its reports
/// ascend and needn't be sorted. Err is want of memory.
pub(crate) fn act_alone<A: Actor + Drop, W: Scene<A>, T: Gate>(
    alloc: Global,
    world: &W,
    round: &Round,
    pace: &mut Pace<'_, T>,
    hand: &mut Hand,
    count: u32,
    reports: &mut Items<Report<A>>,
) -> Result<(), Memory>
    requires of { hand.old.round ≡ round.now }
    requires placed { IsPlaced (W.placed world.now) }
    requires fits { FitsRound (W.placed world.now) round.now.shape }
    requires weight { 1 ≤ hand.old.account.weight }
    requires claims { hand.old.account.collecting ≡ false }
    requires not_met { (k : ℕ) → has_met hand.old.account k ≡ false }
    requires rest { AtRest hand.old.account }
    requires tells { Tells A.meaning (W.placed world.now) reports.old hand.old.account }
    ensures of { hand.new.round ≡ round.now }
    ensures keeps { Keeps hand.old.account hand.new.account }
    ensures tells { Tells A.meaning (W.placed world.now) reports.new hand.new.account }
    ensures ended { OnOk result (Ended (W.placed world.now).managers hand.new.account) }
{
    let mut met = [false; MANAGERS];
    act_ascending(alloc, world, round, pace, hand, count, &mut met, reports)?;
    act_rest(alloc, world, round, pace, hand, &met, reports)
}
