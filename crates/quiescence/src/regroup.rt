ghost use Rattle.std.specs.Prelude.{◌≡◌, ℕ, ◌<◌, ◌≤◌, ◌-◌, IfOk, replicate, [], true};
ghost use Rattle.quiet_core.specs.Rows.{at_pair};
ghost use Rattle.quiet_core.specs.Account.{managers, posts};
ghost use Rattle.quiet_core.specs.Step.{kept_part, new_part};
ghost use Rattle.quiescence.specs.Learnt.{Whole, Learnt};
ghost use Rattle.quiescence.specs.Joint.{AllOf, LookedFrom, Regrouped, helper, joint, keeper};

use crate::hand::Hand;
use crate::round::Round;
use crate::rule::{Halves, Sight};
use atomic_table::Seat;
use sim_base::{ManagerId, Memory};

impl Round {
    // The hands of a list become one.
    pub(crate) fn gather(&self, hands: &mut Vec<Hand>) -> Hand
        requires of { AllOf self.now hands.old.items }
        requires whole { (joint hands.old.items).weight ≡ self.now.shape.hands }
        ensures of { result.round ≡ self.now }
        ensures joint { result.account ≡ joint hands.old.items }
        ensures weight { 1 ≤ result.account.weight }
        ensures learnt { Learnt self.now.shape result.account }
        ensures empty { hands.new.items ≡ [] }
    {
        // There is a hand, since the round has weight.
        let _ = &self.frame;
        let Some(mut last) = hands.pop() else {
            unreachable!()
        };
        while let Some(hand) = hands.pop() {
            self.unite(&mut last, hand);
        }
        last.learn();
        last
    }

    // Looks at the letters from one manager, if somebody was scheduled there: else there is none.
    fn look_from(&self, hand: &mut Hand, m: ManagerId)
        requires of { hand.old.round ≡ self.now }
        requires weight { 1 ≤ hand.old.account.weight }
        requires manager { m.0 < managers self.now.shape }
        ensures looked { LookedFrom hand.old hand.new m.0 (managers self.now.shape) }
    {
        if self.frame.scheduled(m.0) == 0 {
            hand.learn();
            return;
        }
        for n in 0..self.frame.managers() as u32 {
            self.look(hand, m, ManagerId(n));
        }
    }

    // Looks at every pair of managers that may have letters.
    fn look_all(&self, hand: &mut Hand)
        requires of { hand.old.round ≡ self.now }
        requires weight { 1 ≤ hand.old.account.weight }
        ensures same { hand.new ≡ record hand.old { account = record hand.old.account { known = hand.new.account.known } } }
        ensures more { (m n : ℕ) → m < managers self.now.shape → n < managers self.now.shape → posts hand.old.account m n ≤ at_pair hand.new.account.known m n }
    {
        for m in 0..self.frame.managers() as u32 {
            self.look_from(hand, ManagerId(m));
        }
    }

    // Splits off one unit of weight.
    fn halve(&self, seat: &mut Seat<(), Sight>) -> Seat<(), Sight>
        requires of { seat.old.table_id ≡ self.now.table }
        requires shape { seat.old.me.0.shape ≡ self.now.shape }
        requires weight { 2 ≤ seat.old.me.0.account.weight }
        ensures of { (seat.new.table_id ≡ seat.old.table_id) × (result.table_id ≡ seat.old.table_id) }
        ensures kept { seat.new.me ≡ (record seat.old.me.0 { account = kept_part seat.old.me.0.account }, seat.old.me.1) }
        ensures new { result.me ≡ (record seat.old.me.0 { account = new_part seat.old.me.0.shape seat.old.me.0.account }, []) }
    {
        self.table.shared.split_seat::<Halves>(seat)
    }

    // A hand of weight 1, and both collect from then on.
    fn split(&self, hand: &mut Hand) -> Hand
        requires of { hand.old.round ≡ self.now }
        requires weight { 2 ≤ hand.old.account.weight }
        ensures kept { hand.new ≡ record hand.old { account = kept_part hand.old.account } }
        ensures new { result ≡ record hand.old { account = new_part self.now.shape hand.old.account } }
    {
        let seat = self.halve(&mut hand.seat);
        Hand {
            seat,
            reported: 0,
            acked: 0,
        }
    }

    // Splits off all units of weight but one.
    fn share(&self, first: &mut Hand, hands: &mut Vec<Hand>) -> Result<(), Memory>
        requires of { first.old.round ≡ self.now }
        requires whole { first.old.account.weight ≡ self.now.shape.hands }
        requires empty { hands.old.items ≡ [] }
        ensures collect { IfOk result (λ _. 2 ≤ self.now.shape.hands → first.new.account.collecting ≡ true) }
        ensures alone { IfOk result (λ _. self.now.shape.hands ≡ 1 → first.new.account.collecting ≡ first.old.account.collecting) }
        ensures first { IfOk result (λ _. first.new ≡ keeper self.now first.old.account first.old.account.known first.new.account.collecting) }
        ensures others { IfOk result (λ _. hands.new.items ≡ replicate (self.now.shape.hands - 1) (helper self.now first.old.account.known)) }
    {
        for _k in 1..self.frame.hands() {
            let hand = self.split(first);
            hands.push(hand)?;
        }
        Ok(())
    }

    /// Joins all hands of the round into one, looks at every pair of managers, and deals hands of
    /// weight 1 anew. The first hand keeps what all have claimed, reported, posted and acknowledged;
    /// each knows at least as many letters as all have posted. Where there are two hands or more, all
    /// of them collect. Err is want of memory; the hands are lost then, and the round can't be
    /// finished.
    pub fn regroup(&self, mut hands: Vec<Hand>) -> Result<Vec<Hand>, Memory>
        requires of { AllOf self.now hands.items }
        requires whole { (joint hands.items).weight ≡ self.now.shape.hands }
        ensures dealt { IfOk result (λ dealt. Regrouped self.now (joint hands.items) dealt.items) }
        ensures learnt { IfOk result (λ _. Learnt self.now.shape (joint hands.items)) }
        ensures whole { IfOk result (λ _. Whole self.now.shape (joint hands.items)) }
    {
        let mut first = self.gather(&mut hands);
        self.look_all(&mut first);
        self.share(&mut first, &mut hands)?;
        hands.insert(0, first)?;
        Ok(hands)
    }
}
