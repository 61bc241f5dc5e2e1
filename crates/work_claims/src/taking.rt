ghost use Rattle.std.specs.Prelude.{◌≡◌, ◌≢◌, ℕ, ◌≤◌, ◌<◌, ◌⊎◌, true, false, get_or};
ghost use Rattle.quiet_core.specs.Account.{acks, collects, knows, managers};
ghost use Rattle.quiescence.specs.Answers.{NoDuty};
ghost use Rattle.work_claims.specs.Collecting.{SameFrom, Stays, Taking, TakingAll, Took};

use crate::sending::MANAGERS;
use quiescence::{Hand, Round};
use sim_base::ManagerId;

/// Acknowledges so many letters, if there are any, and passes each duty on.
fn ack_some(round: &Round, hand: &mut Hand, m: ManagerId, n: ManagerId, letters: u64)
    requires of { hand.old.round ≡ round.now }
    requires managers { (m.0 < managers round.now.shape) × (n.0 < managers round.now.shape) }
    requires weight { 1 ≤ hand.old.account.weight }
    requires collects { collects hand.old.account n.0 ≡ 1 }
    requires none { acks hand.old.account m.0 n.0 ≡ 0 }
    requires known { letters ≡ knows hand.old.account m.0 n.0 }
    requires no_duty { NoDuty hand.old.account }
    ensures of { hand.new.round ≡ round.now }
    ensures stays { Stays hand.old.account hand.new.account }
    ensures known { hand.new.account.known ≡ hand.old.account.known }
    ensures collected { hand.new.account.collected ≡ hand.old.account.collected }
    ensures here { acks hand.new.account m.0 n.0 ≡ letters }
    ensures apart { (j k : ℕ) → (j ≢ m.0) ⊎ (k ≢ n.0) → acks hand.new.account j k ≡ acks hand.old.account j k }
    ensures no_duty { NoDuty hand.new.account }
{
    if letters > 0 {
        let after = round.ack(hand, m, n, letters);
        round.climb_up(hand, after);
    }
}

/// Learns how many letters a manager has sent, and acknowledges them. A manager at which nobody is
/// scheduled has sent none, and isn't looked at.
fn take_from(round: &Round, hand: &mut Hand, m: ManagerId, n: ManagerId)
    requires of { hand.old.round ≡ round.now }
    requires managers { (m.0 < managers round.now.shape) × (n.0 < managers round.now.shape) }
    requires weight { 1 ≤ hand.old.account.weight }
    requires collects { collects hand.old.account n.0 ≡ 1 }
    requires none { acks hand.old.account m.0 n.0 ≡ 0 }
    requires no_duty { NoDuty hand.old.account }
    ensures of { hand.new.round ≡ round.now }
    ensures took { Taking m.0 n.0 hand.old.account hand.new.account }
    ensures no_duty { NoDuty hand.new.account }
{
    if round.scheduled(m) == 0 {
        hand.learn();
        return;
    }
    let issued = round.look(hand, m, n);
    ack_some(round, hand, m, n, issued);
}

/// Takes in the letters to a manager, if the hand collects them in this phase.
fn take_all(round: &Round, hand: &mut Hand, n: ManagerId)
    requires of { hand.old.round ≡ round.now }
    requires manager { n.0 < managers round.now.shape }
    requires weight { 1 ≤ hand.old.account.weight }
    requires collects { collects hand.old.account n.0 ≡ 1 }
    requires none { (m : ℕ) → m < managers round.now.shape → acks hand.old.account m n.0 ≡ 0 }
    requires no_duty { NoDuty hand.old.account }
    ensures of { hand.new.round ≡ round.now }
    ensures took { TakingAll (managers round.now.shape) n.0 hand.old.account hand.new.account }
    ensures no_duty { NoDuty hand.new.account }
{
    for m in 0..round.managers() as u32 {
        take_from(round, hand, ManagerId(m), n);
    }
}

/// Takes in the letters to a manager if it is the hand's.
fn take_turn(round: &Round, hand: &mut Hand, n: ManagerId, is_mine: bool)
    requires of { hand.old.round ≡ round.now }
    requires manager { n.0 < managers round.now.shape }
    requires weight { 1 ≤ hand.old.account.weight }
    requires collects { is_mine ≡ true → collects hand.old.account n.0 ≡ 1 }
    requires none { is_mine ≡ true → (m : ℕ) → m < managers round.now.shape → acks hand.old.account m n.0 ≡ 0 }
    requires no_duty { NoDuty hand.old.account }
    ensures of { hand.new.round ≡ round.now }
    ensures took { is_mine ≡ true → TakingAll (managers round.now.shape) n.0 hand.old.account hand.new.account }
    ensures left { is_mine ≡ false → hand.new.account ≡ hand.old.account }
    ensures no_duty { NoDuty hand.new.account }
{
    if is_mine {
        take_all(round, hand, n);
    }
}

/// Takes in the letters to the managers that are the hand's.
pub(crate) fn take_mine(round: &Round, hand: &mut Hand, mine: &[bool; MANAGERS])
    requires of { hand.old.round ≡ round.now }
    requires few { managers round.now.shape ≤ 16 }
    requires weight { 1 ≤ hand.old.account.weight }
    requires collects { (n : ℕ) → n < managers round.now.shape → get_or mine.now n false ≡ true → collects hand.old.account n ≡ 1 }
    requires none { (n m : ℕ) → n < managers round.now.shape → get_or mine.now n false ≡ true → m < managers round.now.shape
        → acks hand.old.account m n ≡ 0 }
    requires no_duty { NoDuty hand.old.account }
    ensures of { hand.new.round ≡ round.now }
    ensures took { Took round.now.shape (managers round.now.shape) mine.now hand.old.account hand.new.account }
    ensures no_duty { NoDuty hand.new.account }
{
    for n in 0..round.managers() as u32 {
        take_turn(round, hand, ManagerId(n), mine[n as usize]);
    }
}
