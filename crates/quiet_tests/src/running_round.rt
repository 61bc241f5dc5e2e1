ghost use Rattle.std.specs.Prelude.{◌≡◌, ◌≢◌, ◌≤◌, ◌<◌, ◌∷◌, [], false, IfOk, IfSome, IsTrue, ℕ, vec_len};
ghost use Rattle.std.specs.List.{All};
ghost use Rattle.quiet_core.specs.Account.{acks, collects, fresh, has_met, knows, managers, mark, told};
ghost use Rattle.quiescence.specs.Joint.{new_hand};
ghost use Rattle.quiet_tests.specs.Trial.{Alike, AtEleven, AtNine, AtSixteen, CanAct, One};

use manager_tree::Tree;
use quiescence::{After, Claim, Closed, Hand, Round, Rounds, Turn, Unfinished};
use sim_base::{ManagerId, Memory, NodeId};
use std::alloc::Global;
use std::thread::{Threads, map_vec};

const FIRST: ManagerId = ManagerId(0);

const LAST: ManagerId = ManagerId(2);

// Two hands over three managers, of which the second has no actors.
fn begin(alloc: Global) -> Result<(Round, Hand, Hand), Memory>
    ensures shape { IfOk result (λ r. (managers r.0.shape ≡ 3) × (r.0.shape.hands ≡ 2)) }
    ensures x { IfOk result (λ r. r.1 ≡ new_hand r.0) }
    ensures y { IfOk result (λ r. r.2 ≡ new_hand r.0) }
{
    let tree = Tree::of(alloc, 3, 2)?;
    let (round, mut hands) = Round::open(alloc, &tree, &[2, 0, 1], 2)?;
    let Some(y) = hands.pop() else { unreachable!() };
    let Some(x) = hands.pop() else { unreachable!() };
    Ok((round, x, y))
}

// Announces and posts so many letters of a claimed actor.
fn send(round: &Round, hand: &mut Hand, m: ManagerId, i: u32, to: ManagerId, n: u32)
    requires of { hand.old.round ≡ round.now }
    requires weight { hand.old.account.weight ≡ 1 }
    requires managers { (m.0 < managers round.now.shape) × (to.0 < managers round.now.shape) }
    requires fresh { mark hand.old.account m.0 i ≡ fresh }
    requires amount { (1 ≤ n) × (n ≤ 1024) }
    ensures of { hand.new.round ≡ round.now }
    ensures sent { mark hand.new.account m.0 i ≡ told 0 }
    ensures alike { Alike hand.old.account hand.new.account }
{
    round.raise(hand, m, i, n);
    round.post(hand, m, i, to, n);
}

// Steps 1 to 9: all but one actor report, and x sends two letters from 0 to 2.
fn to_nine(round: &Round, x: &mut Hand, y: &mut Hand) -> bool
    requires managers { managers round.now.shape ≡ 3 }
    requires new { (x.old ≡ new_hand round.now) × (y.old ≡ new_hand round.now) }
    ensures { IsTrue result → AtNine round.now x.new y.new }
{
    let Claim::Claimed(0) = round.claim(x, FIRST) else {
        return false;
    };
    let Claim::Claimed(0) = round.claim(y, LAST) else {
        return false;
    };
    let Claim::Claimed(1) = round.claim(y, FIRST) else {
        return false;
    };
    round.raise(x, FIRST, 0, 2);
    round.post(x, FIRST, 0, LAST, 2);
    let After::Left(3) = round.done(x, FIRST, 0) else {
        return false;
    };
    let After::Duty(NodeId(2)) = round.done(y, LAST, 0) else {
        return false;
    };
    let After::Duty(NodeId(4)) = round.climb(y, NodeId(2)) else {
        return false;
    };
    matches!(round.climb(y, NodeId(4)), After::Left(1))
}

// Steps 10 and 11: the last actor reports, and x finds the first manager exhausted.
fn to_eleven(round: &Round, x: &mut Hand, y: &mut Hand) -> bool
    requires managers { managers round.now.shape ≡ 3 }
    requires nine { AtNine round.now x.old y.old }
    ensures { IsTrue result → AtEleven round.now x.new y.new }
{
    let After::Left(2) = round.done(y, FIRST, 1) else {
        return false;
    };
    matches!(round.claim(x, FIRST), Claim::Exhausted(2))
}

// Steps 12 to 16: x collects the two letters, one after the other.
fn to_sixteen(round: &Round, x: &mut Hand, y: &mut Hand) -> bool
    requires managers { managers round.now.shape ≡ 3 }
    requires eleven { AtEleven round.now x.old y.old }
    ensures { IsTrue result → AtSixteen round.now x.new y.new }
{
    let Turn::Yours = round.collect(x, LAST) else {
        return false;
    };
    let Turn::Taken = round.collect(y, LAST) else {
        return false;
    };
    if round.look(x, FIRST, LAST) != 2 {
        return false;
    }
    let After::Left(1) = round.ack(x, FIRST, LAST, 1) else {
        return false;
    };
    matches!(round.ack(x, FIRST, LAST, 1), After::Duty(NodeId(0)))
}

// Steps 17 and 18: x climbs to the root.
fn to_end(round: &Round, x: &mut Hand, y: &Hand) -> bool
    requires sixteen { AtSixteen round.now x.old y.now }
    ensures { IsTrue result → One round.now x.new }
{
    let After::Duty(NodeId(3)) = round.climb(x, NodeId(0)) else {
        return false;
    };
    matches!(round.climb(x, NodeId(3)), After::Root)
}

// Ends the round of two hands.
fn finish_two(
    alloc: Global,
    round: Round,
    x: Hand,
    y: Hand,
) -> Result<Option<Result<Closed, Unfinished>>, Memory>
    requires hands { round.shape.hands ≡ 2 }
    requires x { One round x }
    requires y { One round y }
{
    let mut hands = Vec::with_capacity(alloc, 2)?;
    hands.push(x)?;
    hands.push(y)?;
    Ok(Some(round.finish(hands)))
}

// The round, ended after 9, 11, 16 or all of its 18 steps. None where a step is answered otherwise.
fn ended_after(alloc: Global, steps: u32) -> Result<Option<Result<Closed, Unfinished>>, Memory> {
    let (round, mut x, mut y) = begin(alloc)?;
    if !to_nine(&round, &mut x, &mut y) {
        return Ok(None);
    }
    if steps == 9 {
        return finish_two(alloc, round, x, y);
    }
    if !to_eleven(&round, &mut x, &mut y) {
        return Ok(None);
    }
    if steps == 11 {
        return finish_two(alloc, round, x, y);
    }
    if !to_sixteen(&round, &mut x, &mut y) {
        return Ok(None);
    }
    if steps == 16 {
        return finish_two(alloc, round, x, y);
    }
    if !to_end(&round, &mut x, &y) {
        return Ok(None);
    }
    finish_two(alloc, round, x, y)
}

// What is left of a round that was ended too early: actors, letters and duties.
fn left_of(ended: Option<Result<Closed, Unfinished>>) -> Option<[u64; 3]> {
    let Some(Err(left)) = ended else {
        return None;
    };
    Some([left.unreported, left.unacked, left.unclimbed])
}

#[test]
fn two_hands_over_three_managers(rt: HostRuntime) -> Result<(), Memory> {
    for (steps, left) in [(9, [1, 2, 0]), (11, [0, 2, 0]), (16, [0, 0, 1])] {
        let ended = ended_after(rt.alloc(), steps)?;
        assert_eq!(rt; left_of(ended), Some(left), "ended after {steps} steps");
    }
    let Some(Ok(closed)) = ended_after(rt.alloc(), 18)? else {
        panic!(rt; "unfinished")
    };
    assert_eq!(rt; closed.managers(), 3);
    assert_eq!(rt; (closed.scheduled(FIRST), closed.scheduled(LAST)), (2, 1));
    assert_eq!(rt;
        (closed.posted(FIRST, LAST), closed.posted(LAST, FIRST)),
        (2, 0)
    );
    Ok(())
}

// The two hands of a list.
fn pair_of(mut hands: Vec<Hand>) -> Option<(Hand, Hand)>
    ensures { IfSome result (λ pair. hands.items ≡ pair.0 ∷ pair.1 ∷ []) }
{
    let second = hands.pop()?;
    let first = hands.pop()?;
    if !hands.is_empty() {
        return None;
    }
    Some((first, second))
}

// A hand that knows of two letters from 0 to 2 collects them at once, and climbs to the root.
fn collect_two(round: &Round, hand: &mut Hand) -> bool
    requires managers { managers round.now.shape ≡ 3 }
    requires one { One round.now hand.old }
    requires knows { 2 ≤ knows hand.old.account 0 2 }
    ensures { IsTrue result → One round.now hand.new }
{
    let Turn::Yours = round.collect(hand, LAST) else {
        return false;
    };
    let After::Duty(NodeId(0)) = round.ack(hand, FIRST, LAST, 2) else {
        return false;
    };
    let After::Duty(NodeId(3)) = round.climb(hand, NodeId(0)) else {
        return false;
    };
    matches!(round.climb(hand, NodeId(3)), After::Root)
}

// The two hands after step eleven are dealt anew, the second one collects, and both unite.
fn regroup_two(
    alloc: Global,
    round: Round,
    x: Hand,
    y: Hand,
) -> Result<Option<Result<Closed, Unfinished>>, Memory>
    requires managers { managers round.shape ≡ 3 }
    requires hands { round.shape.hands ≡ 2 }
    requires eleven { AtEleven round x y }
{
    let mut hands = Vec::with_capacity(alloc, 2)?;
    hands.push(x)?;
    hands.push(y)?;
    let Some((mut first, mut second)) = pair_of(round.regroup(hands)?) else {
        return Ok(None);
    };
    if !collect_two(&round, &mut second) {
        return Ok(None);
    }
    round.unite(&mut first, second);
    let mut all = Vec::with_capacity(alloc, 1)?;
    all.push(first)?;
    Ok(Some(round.finish(all)))
}

// The same round, dealt anew after the eleventh step.
fn regrouped(alloc: Global) -> Result<Option<Result<Closed, Unfinished>>, Memory> {
    let (round, mut x, mut y) = begin(alloc)?;
    if !to_nine(&round, &mut x, &mut y) || !to_eleven(&round, &mut x, &mut y) {
        return Ok(None);
    }
    regroup_two(alloc, round, x, y)
}

// Reports an actor with nothing to post, and passes on the duties that come of it.
fn report(round: &Round, hand: &mut Hand, m: ManagerId, i: u32)
    requires of { hand.old.round ≡ round.now }
    requires weight { hand.old.account.weight ≡ 1 }
    requires manager { m.0 < managers round.now.shape }
    requires sent { mark hand.old.account m.0 i ≡ told 0 }
    ensures of { hand.new.round ≡ round.now }
    ensures alike { Alike hand.old.account hand.new.account }
{
    let after = round.done(hand, m, i);
    round.climb_up(hand, after);
}

// Claims the actors of a manager until there is none. Each sends a letter to an actor of `to`.
fn act_at(round: &Round, hand: &mut Hand, m: ManagerId, to: ManagerId)
    requires of { hand.old.round ≡ round.now }
    requires weight { hand.old.account.weight ≡ 1 }
    requires claims { hand.old.account.collecting ≡ false }
    requires not_met { has_met hand.old.account m.0 ≡ false }
    requires managers { (m.0 < managers round.now.shape) × (to.0 < managers round.now.shape) }
    ensures of { hand.new.round ≡ round.now }
    ensures weight { hand.new.account.weight ≡ 1 }
    ensures claims { hand.new.account.collecting ≡ false }
    ensures others { (k : ℕ) → k ≢ m.0 → has_met hand.new.account k ≡ has_met hand.old.account k }
{
    for _ in 0..100 {
        let Claim::Claimed(i) = round.claim(hand, m) else {
            return;
        };
        send(round, hand, m, i, to, 1);
        report(round, hand, m, i);
    }
}

// Lets the actors of all managers act.
fn act(round: &Round, mut hand: Hand) -> Hand
    requires managers { managers round.now.shape ≡ 3 }
    requires can { CanAct round.now hand }
    ensures { One round.now result }
{
    for m in 0..3 {
        act_at(round, &mut hand, ManagerId(m), ManagerId(2 - m));
    }
    hand
}

// Acknowledges the letters from one manager to another.
fn ack_all(round: &Round, hand: &mut Hand, m: ManagerId, to: ManagerId, n: u64)
    requires of { hand.old.round ≡ round.now }
    requires weight { hand.old.account.weight ≡ 1 }
    requires managers { (m.0 < managers round.now.shape) × (to.0 < managers round.now.shape) }
    requires collects { collects hand.old.account to.0 ≡ 1 }
    requires none { acks hand.old.account m.0 to.0 ≡ 0 }
    requires known { n ≤ knows hand.old.account m.0 to.0 }
    ensures of { hand.new.round ≡ round.now }
    ensures weight { hand.new.account.weight ≡ 1 }
    ensures collects { collects hand.new.account to.0 ≡ 1 }
    ensures others { (k : ℕ) → k ≢ m.0 → acks hand.new.account k to.0 ≡ acks hand.old.account k to.0 }
{
    if n == 0 {
        return;
    }
    let after = round.ack(hand, m, to, n);
    round.climb_up(hand, after);
}

// Takes in all letters to the actors of a manager.
fn take_in(round: &Round, hand: &mut Hand, to: ManagerId)
    requires managers { managers round.now.shape ≡ 3 }
    requires one { One round.now hand.old }
    requires manager { to.0 < 3 }
    requires collects { collects hand.old.account to.0 ≡ 1 }
    requires none { (m : ℕ) → m < 3 → acks hand.old.account m to.0 ≡ 0 }
    ensures { One round.now hand.new }
{
    for m in 0..3 {
        let n = round.look(hand, ManagerId(m), to);
        ack_all(round, hand, ManagerId(m), to, n);
    }
}

// Takes in the letters to the actors of a manager, if it is this hand's turn.
fn collect_for(round: &Round, hand: &mut Hand, to: ManagerId)
    requires managers { managers round.now.shape ≡ 3 }
    requires one { One round.now hand.old }
    requires manager { to.0 < 3 }
    ensures { One round.now hand.new }
{
    let Turn::Yours = round.collect(hand, to) else {
        return;
    };
    take_in(round, hand, to);
}

// Takes in the letters of all managers whose turn is had.
fn collect(round: &Round, mut hand: Hand) -> Hand
    requires managers { managers round.now.shape ≡ 3 }
    requires one { One round.now hand }
    ensures { One round.now result }
{
    for to in 0..3 {
        collect_for(round, &mut hand, ManagerId(to));
    }
    hand
}

// Lets each hand act, in a thread of its own.
fn act_all<R: Threads + Sync>(rt: &R, round: &Round, hands: Vec<Hand>) -> Result<Vec<Hand>, Memory>
    requires managers { managers round.now.shape ≡ 3 }
    requires can { All (CanAct round.now) hands.items }
    ensures count { IfOk result (λ hands'. vec_len hands' ≡ vec_len hands) }
    ensures one { IfOk result (λ hands'. All (One round.now) hands'.items) }
{
    match map_vec(rt, hands, &|hand: Hand| act(round, hand)) {
        Ok(hands) => Ok(hands),
        Err(_) => Err(Memory),
    }
}

// Lets each hand collect, in a thread of its own.
fn collect_all<R: Threads + Sync>(
    rt: &R,
    round: &Round,
    hands: Vec<Hand>,
) -> Result<Vec<Hand>, Memory>
    requires managers { managers round.now.shape ≡ 3 }
    requires one { All (One round.now) hands.items }
    ensures count { IfOk result (λ hands'. vec_len hands' ≡ vec_len hands) }
    ensures one { IfOk result (λ hands'. All (One round.now) hands'.items) }
{
    match map_vec(rt, hands, &|hand: Hand| collect(round, hand)) {
        Ok(hands) => Ok(hands),
        Err(_) => Err(Memory),
    }
}

// Four hands in four threads, over three managers.
fn four_hands<R: Threads + Sync>(
    rt: &R,
    alloc: Global,
) -> Result<Result<Closed, Unfinished>, Memory> {
    let tree = Tree::of(alloc, 3, 2)?;
    let (round, hands) = Round::open(alloc, &tree, &[5, 30, 4], 4)?;
    let hands = act_all(rt, &round, hands)?;
    let hands = round.regroup(hands)?;
    let hands = collect_all(rt, &round, hands)?;
    Ok(round.finish(hands))
}

#[test]
fn rounds_are_counted(rt: HostRuntime) -> Result<(), Memory> {
    let mut rounds = Rounds::new();
    assert_eq!(rt; rounds.numbers(), [0, 0, 0]);
    let Some(Ok(closed)) = regrouped(rt.alloc())? else {
        panic!(rt; "unfinished")
    };
    rounds.add(closed);
    assert_eq!(rt; rounds.numbers(), [1, 3, 2]);
    // Each of 39 actors sends a letter, and four threads close the round.
    for _ in 0..1000 {
        let Ok(closed) = four_hands(&rt, rt.alloc())? else {
            panic!(rt; "unfinished")
        };
        rounds.add(closed);
    }
    assert_eq!(rt; rounds.numbers(), [1001, 39003, 39002]);
    Ok(())
}
