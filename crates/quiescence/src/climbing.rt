ghost use Rattle.std.specs.Prelude.{◌≡◌};
ghost use Rattle.quiescence.specs.Answers.{Holds, NoDuty, OnlyDuty};
ghost use Rattle.quiescence.specs.Learnt.{Learnt};

use crate::answers::After;
use crate::hand::Hand;
use crate::round::Round;

impl Round {
    /// Passes on the duty of an answer, and each that comes of it, until the hand holds none of them. It
    /// ends, since each climb leads to a greater node.
    pub fn climb_up(&self, hand: &mut Hand, after: After)
        requires of { hand.old.round ≡ self.now }
        requires holds { Holds self.now.shape after hand.old.account }
        ensures of { hand.new.round ≡ self.now }
        ensures same { hand.new.account ≡ record hand.old.account { duties = hand.new.account.duties; at_root = hand.new.account.at_root } }
        ensures no_duty { OnlyDuty after hand.old.account → NoDuty hand.new.account }
    {
        let _managers = self.managers();
        let mut after = after;
        while let After::Duty(node) = after {
            hand.learn();
            after = self.climb(hand, node);
        }
    }
}
