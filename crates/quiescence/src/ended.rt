ghost use Rattle.std.specs.Prelude.{◌≡◌, ◌<◌, ◌^◌, length, slice_index, sum};
ghost use Rattle.quiet_core.specs.Balance.{Sized};
ghost use Rattle.quiet_core.specs.Step.{word_count};
ghost use Rattle.quiescence.specs.Counts.{scheduled_in};
ghost use Rattle.quiescence.specs.Ended.{Ends, IsFinish, inner_words, letters, posted_words, working_in};
ghost use Rattle.quiescence.specs.Joint.{AllOf, joint};

use crate::hand::Hand;
use crate::round::Round;
use crate::rule::Sight;
use atomic_table::Seat;
use quiet_core::Frame;
use sim_base::ManagerId;
use std::marker::Model;

/// A round that is over: every scheduled actor is reported once, and every letter acknowledged. Only
/// `finish` makes one. Contracts see how many actors were scheduled at each manager, and how many
/// letters were posted for each pair of managers.
#[derive(Drop)]
pub struct Closed {
    ended: Ended,
}

impl Model for Closed {
    ghost use Rattle.std.specs.Prelude.{◌≡◌, ◌<◌, ◌^◌, length, sum};
    ghost use Rattle.quiet_core.specs.Step.{word_count};
    ghost use Rattle.quiet_core.specs.Balance.{Sized};
    ghost use Rattle.quiescence.specs.Ended.{Closing, closing, posted_words};

    ghost Value = { Closing };

    ghost view = { λ c. closing c.ended.frame c.ended.words.items };

    ghost invariant = { λ c. Sized c.ended.frame × (length c.ended.words.items ≡ word_count c.ended.frame) × (sum (posted_words c.ended.frame c.ended.words.items) < 2 ^ 64) };
}

impl Closed {
    /// How many managers: 1 to 16.
    pub fn managers(&self) -> usize
        ensures { result ≡ length self.now.scheduled }
    {
        self.ended.frame.managers()
    }

    /// How many actors were scheduled at a manager.
    pub fn scheduled(&self, m: ManagerId) -> u32
        requires { m.0 < length self.now.scheduled }
        ensures { result ≡ slice_index self.now.scheduled m.0 }
    {
        self.ended.frame.scheduled(m.0)
    }

    /// How many letters were posted from actors of one manager to actors of another.
    pub fn posted(&self, m: ManagerId, to: ManagerId) -> u64
        requires sender { m.0 < length self.now.scheduled }
        requires recipient { to.0 < length self.now.scheduled }
        ensures { result ≡ letters self.now m.0 to.0 }
    {
        self.ended.words[self.ended.frame.issued_at(m.0, to.0)]
    }

    /// The block in which the round kept its words, for the next one (`Round::open_on`).
    pub fn into_words(self) -> Vec<u64> {
        self.ended.words
    }

    // How many actors were scheduled at all managers.
    pub(crate) fn all_scheduled(&self) -> u64
        ensures { result ≡ sum self.now.scheduled }
    {
        self.ended.scheduled()
    }

    // How many letters were posted for all pairs of managers.
    pub(crate) fn all_posted(&self) -> u64
        ensures { result ≡ sum self.now.posted }
    {
        self.ended.posted()
    }
}

// A round whose table is gone: its frame, and the words as they were left.
#[derive(Drop)]
struct Ended {
    frame: Frame,
    words: Vec<u64>,
}

// The sum of a row of words.
fn total(words: &[u64]) -> u64
    requires { sum words.now < 2 ^ 64 }
    ensures { result ≡ sum words.now }
{
    words.iter().sum()
}

impl Ended {
    // How many actors were scheduled.
    fn scheduled(&self) -> u64
        requires { Sized self.now.frame }
        ensures { result ≡ scheduled_in self.now.frame }
    {
        let mut sum = 0;
        for m in 0..self.frame.managers() {
            sum += self.frame.scheduled(m as u32) as u64;
        }
        sum
    }

    // How many letters were posted.
    fn posted(&self) -> u64
        requires wide { length self.now.words.items ≡ word_count self.now.frame }
        requires sized { Sized self.now.frame }
        requires fits { sum (posted_words self.now.frame self.now.words.items) < 2 ^ 64 }
        ensures { result ≡ sum (posted_words self.now.frame self.now.words.items) }
    {
        total(&self.words[self.frame.issued_at(0, 0)..])
    }

    // How many nodes the inner nodes count for: those with a word, and those at which a duty is held.
    fn alive(&self) -> u64
        requires wide { length self.now.words.items ≡ word_count self.now.frame }
        requires sized { Sized self.now.frame }
        requires fits { sum (inner_words self.now.frame self.now.words.items) < 2 ^ 64 }
        ensures { result ≡ sum (inner_words self.now.frame self.now.words.items) }
    {
        total(&self.words[self.frame.managers()..self.frame.root() + 1])
    }

    // How many nodes below the root have a word that isn't 0.
    fn working(&self) -> u64
        requires wide { length self.now.words.items ≡ word_count self.now.frame }
        requires sized { Sized self.now.frame }
        ensures { result ≡ working_in self.now.frame self.now.words.items }
    {
        let mut count = 0;
        for node in 0..self.frame.root() {
            count += self.words[node].min(1);
        }
        count
    }
}

impl Round {
    // The end of the table.
    fn end(self, seat: Seat<(), Sight>) -> Ended
        requires { seat.table_id ≡ self.table }
        ensures frame { result.frame ≡ self.shape }
        ensures ends { Ends self.shape seat.me.0.account result.words.items }
    {
        let Round {
            table,
            frame,
            mut words,
        } = self;
        let closed = table.close_with(seat);
        for place in 0..words.len() {
            words[place] = closed.word(place);
        }
        closed.free();
        Ended { frame, words }
    }

    /// Ends the round, with all its hands. Ok where they hold Root: then every scheduled actor is
    /// reported once, and every letter is acknowledged. Else Err tells what is left. Takes no memory.
    pub fn finish(self, mut hands: Vec<Hand>) -> Result<Closed, Unfinished>
        requires of { AllOf self hands.items }
        requires whole { (joint hands.items).weight ≡ self.shape.hands }
        ensures { IsFinish self.shape (joint hands.items) result }
    {
        let Hand {
            seat,
            reported,
            acked,
        } = self.gather(&mut hands);
        let ended = self.end(seat);
        if ended.words[ended.frame.root()] > 0 {
            return Err(Unfinished {
                unreported: ended.scheduled() - reported,
                unacked: ended.posted() - acked,
                unclimbed: ended.alive() - ended.working(),
            });
        }
        Ok(Closed { ended })
    }
}

/// What is left of a round that was ended before it was over. At least one number isn't 0.
#[derive(Clone, Copy, Debug, PartialEq, Eq)]
pub struct Unfinished {
    /// How many scheduled actors aren't reported.
    pub unreported: u64,
    /// How many letters are posted and not acknowledged.
    pub unacked: u64,
    /// How many duties are held.
    pub unclimbed: u64,
}
