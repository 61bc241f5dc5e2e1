ghost use Rattle.std.specs.Prelude.{◌≡◌};

use crate::Letter;
use sim_base::{ActorId, Moment};
use std::marker::Model;

/// What comes before what in an inbox: the letters of urgent senders, then those of the others, and
/// within each of the two groups by key, then by sender, then by serial.
#[derive(Drop)]
pub struct Precedence<'a> {
    /// The seed of the run.
    pub seed: u64,
    /// The moment at which the letters were sent.
    pub sent: Moment,
    /// The senders whose letters come first, ascending, each once.
    pub urgent: &'a [ActorId],
}

impl<'a> Model for Precedence<'a> {
    ghost use Rattle.actor_trait.specs.InboxOrder.{AreUrgent, Precedence as Parts};

    ghost Value = { Parts };

    ghost view = { λ p. record { seed = p.seed; sent = p.sent; urgent = p.urgent.now } };

    ghost invariant = { λ p. AreUrgent p.urgent.now };
}

impl<'a> Precedence<'a> {
    ghost use Rattle.actor_trait.specs.InboxOrder.{is_urgent, rank_of};

    /// Whether the letters of a sender come before those of others.
    pub fn is_urgent(&self, sender: ActorId) -> bool
        ensures { result ≡ is_urgent self.now sender }
    {
        let urgent = self.urgent;
        urgent.binary_search(&sender).is_ok()
    }

    /// 0 for a letter of an urgent sender, 1 for any other.
    pub fn rank_of(&self, letter: &Letter) -> u8
        ensures { result ≡ rank_of self.now letter.now }
    {
        if self.is_urgent(letter.from) { 0 } else { 1 }
    }
}
