ghost use Rattle.std.specs.Prelude.{◌≡◌, ◌<◌, ◌∷◌, []};
ghost use Rattle.quiet_core.specs.Conditions.{is, up_to, verdict, to_claim, to_raise, to_post, to_report, to_ack, to_climb};
ghost use Rattle.quiet_core.specs.Entries.{mark_of};

use crate::entry::Entry;
use crate::ledger::Ledger;
use crate::refused::{Condition, Refused};

/// A condition of yes or no.
pub(crate) fn holds(condition: Condition, yes: bool) -> Result<(), Refused>
    ensures { result ≡ verdict (is condition yes ∷ []) }
{
    if yes {
        Ok(())
    } else {
        Err(Refused {
            condition,
            have: 0,
            need: 1,
        })
    }
}

/// The bound `x <= y`.
pub(crate) fn at_most(condition: Condition, x: u64, y: u64) -> Result<(), Refused>
    ensures { result ≡ verdict (up_to condition x y ∷ []) }
{
    if x <= y {
        Ok(())
    } else {
        Err(Refused {
            condition,
            have: y,
            need: x,
        })
    }
}

/// What a claim asks of a hand.
pub(crate) fn to_claim(ledger: &Ledger, m: usize) -> Result<(), Refused>
    requires { m < 16 }
    ensures { result ≡ verdict (to_claim m ledger.now) }
{
    holds(Condition::NotCollecting, !ledger.collecting())?;
    holds(Condition::NotExhausted, !ledger.has_met(m))
}

/// What the announcement of `n` letters asks of an actor.
pub(crate) fn to_raise(entry: Entry, hand: u32, n: u32) -> Result<(), Refused>
    ensures { result ≡ verdict (to_raise n (mark_of hand entry)) }
{
    holds(Condition::IsOpen, entry.is_open(hand))?;
    holds(Condition::NotAnnounced, entry.is_plain(hand))?;
    at_most(Condition::Amount, 1, n as u64)?;
    at_most(Condition::Amount, n as u64, 1024)
}

/// What the posting of `n` letters asks of an actor.
pub(crate) fn to_post(entry: Entry, hand: u32, n: u32) -> Result<(), Refused>
    ensures { result ≡ verdict (to_post n (mark_of hand entry)) }
{
    holds(Condition::IsOpen, entry.is_open(hand))?;
    at_most(Condition::Amount, 1, n as u64)?;
    at_most(Condition::Amount, n as u64, entry.owing(hand) as u64)
}

/// What a report asks of an actor.
pub(crate) fn to_report(entry: Entry, hand: u32) -> Result<(), Refused>
    ensures { result ≡ verdict (to_report (mark_of hand entry)) }
{
    holds(Condition::IsOpen, entry.is_open(hand))?;
    holds(Condition::AllPosted, entry.owing(hand) == 0)
}

/// What the acknowledgement of `k` letters from m to n asks of a hand.
pub(crate) fn to_ack(ledger: &Ledger, m: usize, n: usize, k: u64) -> Result<(), Refused>
    requires sender { m < 16 }
    requires recipient { n < 16 }
    ensures { result ≡ verdict (to_ack m n k ledger.now) }
{
    holds(Condition::Collects, ledger.collects(n) == 1)?;
    at_most(Condition::Amount, 1, k)?;
    let most = ledger.knows(m, n).max(ledger.posts(m, n));
    let sum = ledger.acks(m, n).checked_add(k);
    match sum {
        Some(sum) => at_most(Condition::Known, sum, most),
        None => Err(Refused {
            condition: Condition::Known,
            have: most,
            need: u64::MAX,
        }),
    }
}

/// What a climb asks of a hand.
pub(crate) fn to_climb(ledger: &Ledger, node: usize) -> Result<(), Refused>
    requires { node < 31 }
    ensures { result ≡ verdict (to_climb node ledger.now) }
{
    holds(Condition::HoldsDuty, ledger.has_duty(node))
}
