ghost use Rattle.std.specs.Prelude.{◌≡◌, ◌≢◌, ◌≤◌, ◌<◌, length, slice_index, IfOk, ℕ, false};
ghost use Rattle.std.specs.List.{All};
ghost use Rattle.quiet_core.specs.Account.{acks, collects, fresh, has_met, managers, mark, opened, owing};
ghost use Rattle.round_cost.specs.Hands.{Alike, CanAct, One};

use manager_tree::Tree;
use quiescence::{Claim, Hand, Round, Turn};
use sim_base::{ManagerId, Memory};
use std::alloc::Global;

/// How many actors are scheduled at each manager: so many at the first, and so many at each other.
pub(crate) fn scheduled_at(
    alloc: Global,
    tree: &Tree,
    first: u32,
    other: u32,
) -> Result<Vec<u32>, Memory>
    requires first { (1 ≤ first) × (first ≤ 1000000) }
    requires other { other ≤ 1000000 }
    ensures leaves { IfOk result (λ v. length v.items ≡ tree.now.leaves) }
    ensures few { IfOk result (λ v. (m : ℕ) → m < length v.items → slice_index v.items m ≤ 1000000) }
    ensures somebody { IfOk result (λ v. (0 < length v.items) × (1 ≤ slice_index v.items 0)) }
{
    let mut scheduled = vec![in alloc; other; tree.leaves() as usize]?;
    scheduled[0] = first;
    Ok(scheduled)
}

// Announces and posts so many letters of a claimed actor, if there are any.
fn send(round: &Round, hand: &mut Hand, m: ManagerId, i: u32, to: ManagerId, n: u32)
    requires of { hand.old.round ≡ round.now }
    requires weight { hand.old.account.weight ≡ 1 }
    requires managers { (m.0 < managers round.now.shape) × (to.0 < managers round.now.shape) }
    requires fresh { mark hand.old.account m.0 i ≡ fresh }
    requires amount { n ≤ 1024 }
    ensures of { hand.new.round ≡ round.now }
    ensures open { opened (mark hand.new.account m.0 i) ≡ 1 }
    ensures posted { owing (mark hand.new.account m.0 i) ≡ 0 }
    ensures alike { Alike hand.old.account hand.new.account }
{
    if n == 0 {
        return;
    }
    round.raise(hand, m, i, n);
    round.post(hand, m, i, to, n);
}

// Lets a claimed actor act: it sends its letters and is reported.
fn act_one(round: &Round, hand: &mut Hand, m: ManagerId, i: u32, to: ManagerId, n: u32)
    requires of { hand.old.round ≡ round.now }
    requires weight { hand.old.account.weight ≡ 1 }
    requires managers { (m.0 < managers round.now.shape) × (to.0 < managers round.now.shape) }
    requires fresh { mark hand.old.account m.0 i ≡ fresh }
    requires amount { n ≤ 1024 }
    ensures of { hand.new.round ≡ round.now }
    ensures alike { Alike hand.old.account hand.new.account }
{
    send(round, hand, m, i, to, n);
    let after = round.done(hand, m, i);
    round.climb_up(hand, after);
}

// Claims the actors of a manager until there is none, and lets each act. Where nobody is scheduled
// there is nothing to claim.
fn act_at(round: &Round, hand: &mut Hand, m: ManagerId, to: ManagerId, n: u32)
    requires of { hand.old.round ≡ round.now }
    requires weight { hand.old.account.weight ≡ 1 }
    requires claims { hand.old.account.collecting ≡ false }
    requires not_met { has_met hand.old.account m.0 ≡ false }
    requires managers { (m.0 < managers round.now.shape) × (to.0 < managers round.now.shape) }
    requires amount { n ≤ 1024 }
    ensures of { hand.new.round ≡ round.now }
    ensures weight { hand.new.account.weight ≡ 1 }
    ensures claims { hand.new.account.collecting ≡ false }
    ensures others { (k : ℕ) → k ≢ m.0 → has_met hand.new.account k ≡ has_met hand.old.account k }
{
    if round.scheduled(m) == 0 {
        return;
    }
    for _ in 0..1_000_001 {
        let Claim::Claimed(i) = round.claim(hand, m) else {
            return;
        };
        act_one(round, hand, m, i, to, n);
    }
}

// Lets the actors of all managers act. Each sends its letters to the manager at the other end.
fn act(round: &Round, hand: &mut Hand, n: u32)
    requires can { CanAct round.now hand.old }
    requires amount { n ≤ 1024 }
    ensures { One round.now hand.new }
{
    let managers = round.managers() as u32;
    for m in 0..managers {
        act_at(round, hand, ManagerId(m), ManagerId(managers - 1 - m), n);
    }
}

// Takes in the letters from one manager to another, if somebody was scheduled there.
fn take_from(round: &Round, hand: &mut Hand, m: ManagerId, to: ManagerId)
    requires one { One round.now hand.old }
    requires managers { (m.0 < managers round.now.shape) × (to.0 < managers round.now.shape) }
    requires collects { collects hand.old.account to.0 ≡ 1 }
    requires none { acks hand.old.account m.0 to.0 ≡ 0 }
    ensures one { One round.now hand.new }
    ensures collects { collects hand.new.account to.0 ≡ 1 }
    ensures others { (k : ℕ) → m.0 < k → acks hand.new.account k to.0 ≡ acks hand.old.account k to.0 }
{
    if round.scheduled(m) == 0 {
        return;
    }
    let n = round.look(hand, m, to);
    if n == 0 {
        return;
    }
    let after = round.ack(hand, m, to, n);
    round.climb_up(hand, after);
}

// Takes in all letters to a manager.
fn take_in(round: &Round, hand: &mut Hand, to: ManagerId)
    requires one { One round.now hand.old }
    requires manager { to.0 < managers round.now.shape }
    requires collects { collects hand.old.account to.0 ≡ 1 }
    requires none { (m : ℕ) → m < managers round.now.shape → acks hand.old.account m to.0 ≡ 0 }
    ensures { One round.now hand.new }
{
    for m in 0..round.managers() as u32 {
        take_from(round, hand, ManagerId(m), to);
    }
}

// Whether there are letters from one manager to another.
fn has_letters(round: &Round, hand: &mut Hand, m: ManagerId, to: ManagerId) -> bool
    requires one { One round.now hand.old }
    requires managers { (m.0 < managers round.now.shape) × (to.0 < managers round.now.shape) }
    ensures { One round.now hand.new }
{
    round.scheduled(m) > 0 && round.look(hand, m, to) > 0
}

// Whether there are letters to a manager.
fn is_awaited(round: &Round, hand: &mut Hand, to: ManagerId) -> bool
    requires one { One round.now hand.old }
    requires manager { to.0 < managers round.now.shape }
    ensures { One round.now hand.new }
{
    for m in 0..round.managers() as u32 {
        if has_letters(round, hand, ManagerId(m), to) {
            return true;
        }
    }
    false
}

// Takes in the letters to a manager, if there are any and it is this hand's turn.
fn collect_for(round: &Round, hand: &mut Hand, to: ManagerId)
    requires one { One round.now hand.old }
    requires manager { to.0 < managers round.now.shape }
    ensures { One round.now hand.new }
{
    if !is_awaited(round, hand, to) {
        return;
    }
    let Turn::Yours = round.collect(hand, to) else {
        return;
    };
    take_in(round, hand, to);
}

// Takes in the letters to all managers whose turn is had.
fn collect(round: &Round, hand: &mut Hand)
    requires { One round.now hand.old }
    ensures { One round.now hand.new }
{
    for to in 0..round.managers() as u32 {
        collect_for(round, hand, ManagerId(to));
    }
}

// Lets each hand act, one after the other.
fn act_all(alloc: Global, round: &Round, mut hands: Vec<Hand>, n: u32) -> Result<Vec<Hand>, Memory>
    requires can { All (CanAct round.now) hands.items }
    requires amount { n ≤ 1024 }
    ensures one { IfOk result (λ done. All (One round.now) done.items) }
    ensures count { IfOk result (λ done. length done.items ≡ length hands.items) }
{
    let mut done = Vec::with_capacity(alloc, hands.len())?;
    while let Some(mut hand) = hands.pop() {
        act(round, &mut hand, n);
        done.push(hand)?;
    }
    Ok(done)
}

// Lets each hand collect, one after the other.
fn collect_all(alloc: Global, round: &Round, mut hands: Vec<Hand>) -> Result<Vec<Hand>, Memory>
    requires { All (One round.now) hands.items }
    ensures one { IfOk result (λ done. All (One round.now) done.items) }
    ensures count { IfOk result (λ done. length done.items ≡ length hands.items) }
{
    let mut done = Vec::with_capacity(alloc, hands.len())?;
    while let Some(mut hand) = hands.pop() {
        collect(round, &mut hand);
        done.push(hand)?;
    }
    Ok(done)
}

// Deals several hands anew, so that each knows of all letters. One hand knows of them.
fn deal(round: &Round, hands: Vec<Hand>) -> Result<Vec<Hand>, Memory>
    requires one { All (One round.now) hands.items }
    requires whole { length hands.items ≡ round.now.shape.hands }
    requires some { 1 ≤ round.now.shape.hands }
    ensures one { IfOk result (λ dealt. All (One round.now) dealt.items) }
    ensures whole { IfOk result (λ dealt. length dealt.items ≡ round.now.shape.hands) }
{
    if round.hands() == 1 {
        return Ok(hands);
    }
    let dealt = round.regroup(hands)?;
    Ok(dealt)
}

/// A whole moment, on the block of the one before: the block of its words, if its round was closed.
pub(crate) fn close_one(
    alloc: Global,
    words: Vec<u64>,
    tree: &Tree,
    scheduled: &[u32],
    hands: u32,
    letters: u32,
) -> Result<Option<Vec<u64>>, Memory>
    requires leaves { length scheduled.now ≡ tree.now.leaves }
    requires few { (m : ℕ) → m < length scheduled.now → slice_index scheduled.now m ≤ 1000000 }
    requires somebody { (0 < length scheduled.now) × (1 ≤ slice_index scheduled.now 0) }
    requires least_hands { 1 ≤ hands }
    requires most_hands { hands ≤ 64 }
    requires letters { letters ≤ 1024 }
{
    let (round, hands) = Round::open_on(alloc, words, tree, scheduled, hands)?;
    let hands = act_all(alloc, &round, hands, letters)?;
    let hands = deal(&round, hands)?;
    let hands = collect_all(alloc, &round, hands)?;
    match round.finish(hands) {
        Ok(closed) => Ok(Some(closed.into_words())),
        Err(_) => Ok(None),
    }
}
