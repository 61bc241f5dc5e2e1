ghost use Rattle.std.specs.Prelude.{◌≡◌, ◌∷◌, []};
ghost use Rattle.quiescence.specs.Rounds.{no_rounds, with_round};

use crate::ended::Closed;
use std::marker::Model;

/// The sums over closed rounds: how many there were, how many actors were scheduled in them, and how
/// many letters were posted. Each stops at the end of its type. A round that isn't closed adds nothing,
/// since only `finish` makes a `Closed`.
#[derive(Debug, Drop)]
pub struct Rounds {
    rounds: u64,
    scheduled: u64,
    posted: u64,
}

impl Model for Rounds {
    ghost use Rattle.quiescence.specs.Rounds.{RoundSums};

    ghost Value = { RoundSums };

    ghost view = { λ r. record { rounds = r.rounds; scheduled = r.scheduled; posted = r.posted } };
}

impl Rounds {
    /// No round yet: 0, 0 and 0.
    pub fn new() -> Rounds
        ensures { result ≡ no_rounds }
    {
        Rounds {
            rounds: 0,
            scheduled: 0,
            posted: 0,
        }
    }

    /// Adds a closed round: 1, the actors that were scheduled in it, and the letters that were posted.
    /// Gives back the block of its words, on which the next round may stand (`Round::open_on`).
    pub fn add(&mut self, closed: Closed) -> Vec<u64>
        ensures { self.new ≡ with_round self.old closed }
    {
        self.rounds = self.rounds.saturating_add(1);
        self.scheduled = self.scheduled.saturating_add(closed.all_scheduled());
        self.posted = self.posted.saturating_add(closed.all_posted());
        closed.into_words()
    }

    /// The rounds, the scheduled actors and the posted letters.
    pub fn numbers(&self) -> [u64; 3]
        ensures { result ≡ self.now.rounds ∷ self.now.scheduled ∷ self.now.posted ∷ [] }
    {
        [self.rounds, self.scheduled, self.posted]
    }
}
