ghost use Rattle.std.specs.Prelude.{◌≡◌, ◌<◌, ◌≤◌, ◌-◌, ℕ, IfOk, length, replicate, slice_index, []};
ghost use Rattle.quiet_core.specs.Account.{blank};
ghost use Rattle.quiet_core.specs.Balance.{Sized};
ghost use Rattle.quiet_core.specs.Opening.{Somebody, shape_over};
ghost use Rattle.quiescence.specs.Joint.{new_hand};

use crate::hand::Hand;
use crate::round::Round;
use crate::rule::{Deals, Sight};
use atomic_table::{Seat, Table};
use manager_tree::Tree;
use quiet_core::{Frame, opening_words};
use sim_base::Memory;
use std::alloc::Global;

impl Round {
    /// A round over a tree, whose leaves are the managers: how many actors are scheduled at each of
    /// them, at most 1,000,000, and how many hands there are, 1 to 64. Somebody is scheduled. Beside
    /// it its hands, each with a weight of 1, that have done nothing. Err is want of memory.
    pub fn open(
        alloc: Global,
        tree: &Tree,
        scheduled: &[u32],
        hands: u32,
    ) -> Result<(Round, Vec<Hand>), Memory>
        requires leaves { length scheduled.now ≡ tree.now.leaves }
        requires few { (m : ℕ) → m < length scheduled.now → slice_index scheduled.now m ≤ 1000000 }
        requires somebody { (m : ℕ) × (m < length scheduled.now) × (1 ≤ slice_index scheduled.now m) }
        requires least_hands { 1 ≤ hands }
        requires most_hands { hands ≤ 64 }
        ensures shape { IfOk result (λ r. r.0.shape ≡ shape_over tree.now scheduled.now hands) }
        ensures hands { IfOk result (λ r. r.1.items ≡ replicate hands (new_hand r.0)) }
    {
        Round::open_on(alloc, Vec::new(alloc), tree, scheduled, hands)
    }

    /// The same, on the block of a round that was closed (`Closed::into_words`), so that a round takes
    /// the block of its table and that of its list of hands alone. What the block holds doesn't matter.
    pub fn open_on(
        alloc: Global,
        words: Vec<u64>,
        tree: &Tree,
        scheduled: &[u32],
        hands: u32,
    ) -> Result<(Round, Vec<Hand>), Memory>
        requires leaves { length scheduled.now ≡ tree.now.leaves }
        requires few { (m : ℕ) → m < length scheduled.now → slice_index scheduled.now m ≤ 1000000 }
        requires somebody { (m : ℕ) × (m < length scheduled.now) × (1 ≤ slice_index scheduled.now m) }
        requires least_hands { 1 ≤ hands }
        requires most_hands { hands ≤ 64 }
        ensures shape { IfOk result (λ r. r.0.shape ≡ shape_over tree.now scheduled.now hands) }
        ensures hands { IfOk result (λ r. r.1.items ≡ replicate hands (new_hand r.0)) }
    {
        Round::over(alloc, words, Frame::of(tree, scheduled, hands))
    }

    // The round of this shape.
    fn over(alloc: Global, words: Vec<u64>, frame: Frame) -> Result<(Round, Vec<Hand>), Memory>
        requires sized { Sized frame }
        requires some_hands { 1 ≤ frame.hands }
        requires somebody { Somebody frame }
        ensures shape { IfOk result (λ r. r.0.shape ≡ frame) }
        ensures hands { IfOk result (λ r. r.1.items ≡ replicate frame.hands (new_hand r.0)) }
    {
        let words = opening_words(words, &frame)?;
        let (table, seat) = Table::of_words(alloc, words.as_slice(), &frame)?;
        let first = Hand {
            seat,
            reported: 0,
            acked: 0,
        };
        let round = Round {
            table,
            frame,
            words,
        };
        let hands = round.deal(alloc, first)?;
        Ok((round, hands))
    }

    // Splits off one unit of weight, before anybody has done anything.
    fn cut(&self, seat: &mut Seat<(), Sight>) -> Seat<(), Sight>
        requires of { seat.old.table_id ≡ self.now.table }
        requires shape { seat.old.me.0.shape ≡ self.now.shape }
        requires blank { seat.old.me.0.account ≡ record (blank self.now.shape) { weight = seat.old.me.0.account.weight } }
        requires weight { 2 ≤ seat.old.me.0.account.weight }
        ensures of { (seat.new.table_id ≡ seat.old.table_id) × (result.table_id ≡ seat.old.table_id) }
        ensures kept { seat.new.me ≡ (record seat.old.me.0 { account = record (blank seat.old.me.0.shape) { weight = seat.old.me.0.account.weight - 1 } }, seat.old.me.1) }
        ensures new { result.me ≡ (record seat.old.me.0 { account = record (blank seat.old.me.0.shape) { weight = 1 } }, []) }
    {
        self.table.shared.split_seat::<Deals>(seat)
    }

    // A hand of weight 1 from one that has done nothing.
    fn new_hand(&self, first: &mut Hand) -> Hand
        requires of { first.old.round ≡ self.now }
        requires blank { first.old.account ≡ record (blank self.now.shape) { weight = first.old.account.weight } }
        requires weight { 2 ≤ first.old.account.weight }
        ensures kept { first.new ≡ record first.old { account = record (blank self.now.shape) { weight = first.old.account.weight - 1 } } }
        ensures new { result ≡ new_hand self.now }
    {
        let seat = self.cut(&mut first.seat);
        Hand {
            seat,
            reported: 0,
            acked: 0,
        }
    }

    // Cuts a hand of the whole weight that has done nothing into hands of weight 1.
    fn deal(&self, alloc: Global, mut first: Hand) -> Result<Vec<Hand>, Memory>
        requires of { first.round ≡ self.now }
        requires blank { first.account ≡ record (blank self.now.shape) { weight = self.now.shape.hands } }
        ensures { IfOk result (λ hands. hands.items ≡ replicate self.now.shape.hands (new_hand self.now)) }
    {
        let count = self.frame.hands();
        let mut hands = Vec::with_capacity(alloc, count as usize)?;
        for _k in 1..count {
            let hand = self.new_hand(&mut first);
            hands.push(hand)?;
        }
        hands.push(first)?;
        Ok(hands)
    }
}
