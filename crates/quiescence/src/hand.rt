ghost use Rattle.std.specs.Prelude.{◌≤◌};
ghost use Rattle.quiescence.specs.Learnt.{Learnt};
ghost use Rattle.quiescence.specs.Rule.{Stands};

use crate::rule::Sight;
use atomic_table::Seat;
use std::marker::Model;

/// One hand of a round, which a thread works with. It is moved, never copied. Contracts see which
/// round it is of, and its account: its weight, and what it has done in the round.
#[derive(Drop)]
pub struct Hand {
    pub(crate) seat: Seat<(), Sight>,
    // How many actors it has reported, and how many letters it has acknowledged.
    pub(crate) reported: u64,
    pub(crate) acked: u64,
}

impl Model for Hand {
    ghost use Rattle.quiescence.specs.Rule.{Holding};
    ghost use Rattle.quiescence.specs.Hands.{IsHand};

    ghost Value = { Holding };

    ghost view = { λ h. record { round = record { table = h.seat.table_id; shape = h.seat.me.0.shape }; account = h.seat.me.0.account } };

    ghost invariant = { λ h. IsHand h.seat.me.0.shape h.seat.me h.reported h.acked };
}

impl Hand {
    /// What holds of every hand: it has weight, and its account stands in a state of its round that has
    /// the balance. It does nothing at run time; a caller learns here what the first call of a hand
    /// asks for.
    pub fn learn(&self)
        ensures weight { 1 ≤ self.now.account.weight }
        ensures stands { Stands self.now.round.shape self.now.account }
        ensures learnt { Learnt self.now.round.shape self.now.account }
    {
        let _ = &self.seat;
    }
}
