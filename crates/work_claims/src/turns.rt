ghost use Rattle.std.specs.Prelude.{◌≡◌, ◌≢◌, ℕ, ◌≤◌, ◌<◌, true, false, [], length};
ghost use Rattle.quiet_core.specs.Account.{acks, collects, managers};
ghost use Rattle.work_claims.specs.Collecting.{IsTurnOf, Turned};

use crate::sending::MANAGERS;
use quiescence::{Hand, Round, Turn};
use sim_base::ManagerId;

/// Tries the turn of a manager, and says whether the hand takes it.
fn try_turn(round: &Round, hand: &mut Hand, n: ManagerId) -> bool
    requires of { hand.old.round ≡ round.now }
    requires manager { n.0 < managers round.now.shape }
    requires weight { 1 ≤ hand.old.account.weight }
    ensures of { hand.new.round ≡ round.now }
    ensures turn { IsTurnOf n.0 result hand.old.account hand.new.account }
    ensures unacked { result ≡ true → (m : ℕ) → m < managers round.now.shape → acks hand.old.account m n.0 ≡ 0 }
    ensures same { hand.new.account ≡ record hand.old.account { collected = hand.new.account.collected } }
    ensures others { (k : ℕ) → k ≢ n.0 → collects hand.new.account k ≡ collects hand.old.account k }
    ensures own { hand.old.account.weight ≡ round.now.shape.hands → collects hand.new.account n.0 ≡ 1 }
{
    match round.collect(hand, n) {
        Turn::Yours => true,
        Turn::Taken => false,
    }
}

/// Tries the turns of a range of managers, in order, and notes those that the hand takes.
fn try_range(
    round: &Round,
    hand: &mut Hand,
    range: (u32, u32),
    mut mine: [bool; MANAGERS],
) -> [bool; MANAGERS]
    requires of { hand.old.round ≡ round.now }
    requires range { (range.0 ≤ range.1) × (range.1 ≤ managers round.now.shape) }
    requires few { managers round.now.shape ≤ 16 }
    requires wide { length mine ≡ 16 }
    requires weight { 1 ≤ hand.old.account.weight }
    ensures of { hand.new.round ≡ round.now }
    ensures wide { length result ≡ 16 }
    ensures turned { Turned round.now.shape range.0 range.1 mine result hand.old.account hand.new.account }
{
    for n in range.0..range.1 {
        mine[n as usize] = try_turn(round, hand, ManagerId(n));
    }
    mine
}

/// Tries the turn of each manager, from the home manager of the hand on, and says which it takes.
pub(crate) fn try_all(round: &Round, hand: &mut Hand, number: u32) -> [bool; MANAGERS]
    requires of { hand.old.round ≡ round.now }
    requires weight { 1 ≤ hand.old.account.weight }
    ensures of { hand.new.round ≡ round.now }
    ensures turned { Turned round.now.shape 0 (managers round.now.shape) [] result hand.old.account hand.new.account }
{
    let managers = round.managers() as u32;
    let home = number % managers;
    let mine = try_range(round, hand, (home, managers), [false; MANAGERS]);
    try_range(round, hand, (0, home), mine)
}
