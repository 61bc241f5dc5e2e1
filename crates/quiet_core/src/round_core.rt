ghost use Rattle.std.specs.Prelude.{◌≡◌, ◌≢◌, ◌<◌, ◌≤◌, ◌+◌, ◌^◌, ℕ, length, slice_index, true, IfOk};
ghost use Rattle.quiet_core.specs.Account.{account};
ghost use Rattle.quiet_core.specs.Step.{May, acted, place, change, changed, up, down, word};
ghost use Rattle.quiet_core.specs.Balance.{Balance, Sized};
ghost use Rattle.quiet_core.specs.Opening.{IsOpened, Somebody, shape_over};
ghost use Rattle.quiet_core.specs.Quiet.{Quiet};
ghost use Rattle.quiet_core.specs.Conditions.{verdict};
ghost use Rattle.quiet_core.specs.Event.{account_of, after_event, answer, answered, conditions, does, joins, moved, splits, stepped};

use crate::accounts::Accounts;
use crate::checks::{at_most, holds, to_ack, to_claim, to_climb, to_post, to_raise, to_report};
use crate::deed::Deed;
use crate::event::CoreEvent;
use crate::frame::Frame;
use crate::opening::opening_words;
use crate::refused::{Condition, Refused};
use manager_tree::Tree;
use sim_base::Memory;
use std::alloc::Global;
use std::marker::Model;

/// A round, event by event: its counters, and the account of each hand. Contracts see the shape of
/// the round, the words and the accounts. A core keeps the balance, whatever the events.
#[derive(Drop)]
pub struct Core {
    frame: Frame,
    words: Vec<u64>,
    accounts: Accounts,
}

impl Model for Core {
    ghost use Rattle.std.specs.Prelude.{◌≡◌, ◌<◌, length};
    ghost use Rattle.quiet_core.specs.Balance.{Balance};
    ghost use Rattle.quiet_core.specs.Event.{Standing};

    ghost Value = { Standing };

    ghost view = { λ c. record { shape = c.frame; state = record { words = c.words.items; accounts = c.accounts.accounts } } };

    ghost invariant = { λ c. Balance c.frame record { words = c.words.items; accounts = c.accounts.accounts } × (c.accounts.sched ≡ c.frame.sched) × (length c.accounts.accounts ≡ c.frame.hands) };
}

// What becomes of the word of a deed.
fn changed(deed: Deed, word: u64) -> u64
    requires up { (k : ℕ) → change deed ≡ up k → word + k < 2 ^ 64 }
    requires down { (k : ℕ) → change deed ≡ down k → k ≤ word }
    ensures { result ≡ changed (change deed) word }
{
    match deed {
        Deed::Claim { .. } => word + 1,
        Deed::Raise { n, .. } => word + n as u64,
        Deed::Post { n, .. } => word + n as u64,
        Deed::Collect { .. } => 1,
        Deed::Look { .. } => word,
        Deed::Ack { n, .. } => word - n,
        Deed::Done { .. } => word - 1,
        Deed::Climb { .. } => word - 1,
    }
}

impl Core {
    /// The core of a round over a tree, whose leaves are the managers: how many actors are scheduled
    /// at each of them, at most 1,000,000, and how many hands there are, 1 to 64. Somebody is
    /// scheduled. Each hand has a weight of 1 and has done nothing. Err is want of memory.
    pub fn open(alloc: Global, tree: &Tree, scheduled: &[u32], hands: u32) -> Result<Core, Memory>
        requires leaves { length scheduled.now ≡ tree.now.leaves }
        requires few { (m : ℕ) → m < length scheduled.now → slice_index scheduled.now m ≤ 1000000 }
        requires somebody { (m : ℕ) × (m < length scheduled.now) × (1 ≤ slice_index scheduled.now m) }
        requires least_hands { 1 ≤ hands }
        requires most_hands { hands ≤ 64 }
        ensures opening { IfOk result (λ core. IsOpened (shape_over tree.now scheduled.now hands) core) }
    {
        let frame = Frame::of(tree, scheduled, hands);
        Core::over(alloc, frame)
    }

    // The core of a round of this shape.
    fn over(alloc: Global, frame: Frame) -> Result<Core, Memory>
        requires sized { Sized frame }
        requires somebody { Somebody frame }
        ensures { IfOk result (λ core. IsOpened frame core) }
    {
        let words = opening_words(Vec::new(alloc), &frame)?;
        let accounts = Accounts::of(alloc, &frame)?;
        Ok(Core {
            frame,
            words,
            accounts,
        })
    }

    // Whether the conditions of a deed hold.
    fn check(&self, hand: u32, deed: Deed) -> Result<(), Refused>
        ensures verdict { result ≡ verdict (conditions self.now.shape self.now.state (does hand deed)) }
        ensures balance { Balance self.now.shape self.now.state }
    {
        let known = (hand as usize) < self.accounts.hands();
        holds(Condition::InRange, known && self.frame.in_range(deed))?;
        let ledger = self.accounts.ledger(hand as usize);
        at_most(Condition::HasWeight, 1, ledger.weight() as u64)?;
        match deed {
            Deed::Claim { m } => to_claim(ledger, m as usize),
            Deed::Raise { m, i, n } => to_raise(
                self.accounts.entry(m as usize, i as usize),
                hand,
                n,
            ),
            Deed::Post { m, i, n, .. } => to_post(
                self.accounts.entry(m as usize, i as usize),
                hand,
                n,
            ),
            Deed::Done { m, i } => to_report(self.accounts.entry(m as usize, i as usize), hand),
            Deed::Collect { .. } | Deed::Look { .. } => Ok(()),
            Deed::Ack { m, to, n } => to_ack(ledger, m as usize, to as usize, n),
            Deed::Climb { node } => to_climb(ledger, node as usize),
        }
    }

    // A deed whose conditions hold.
    fn perform(&mut self, hand: u32, deed: Deed) -> u64
        requires hand { hand < length self.old.state.accounts }
        requires may { May self.old.shape deed (account_of self.old.state hand) }
        ensures word { result ≡ word self.old.state (place self.old.shape deed) }
        ensures balance { Balance self.new.shape self.new.state }
        ensures state { self.new ≡ record self.old { state = acted self.old.shape hand (account_of self.old.state hand) deed self.old.state } }
    {
        let at = self.frame.place(deed);
        let found = self.words[at];
        self.words[at] = changed(deed, found);
        self.accounts.act(&self.frame, hand, deed, found);
        found
    }

    // A deed, where its conditions hold.
    fn act(&mut self, hand: u32, deed: Deed) -> Result<u64, Refused>
        ensures answer { result ≡ answered (verdict (conditions self.old.shape self.old.state (does hand deed))) (word self.old.state (place self.old.shape deed)) }
        ensures state { self.new ≡ stepped self.old (does hand deed) }
        ensures balance { Balance self.new.shape self.new.state }
    {
        self.check(hand, deed)?;
        Ok(self.perform(hand, deed))
    }

    // Whether two hands may join.
    fn check_join(&self, hand: u32, from: u32) -> Result<(), Refused>
        ensures verdict { result ≡ verdict (conditions self.now.shape self.now.state (joins hand from)) }
        ensures balance { Balance self.now.shape self.now.state }
    {
        let hands = self.accounts.hands();
        holds(
            Condition::InRange,
            (hand as usize) < hands && (from as usize) < hands,
        )?;
        let weight = self.accounts.ledger(hand as usize).weight();
        at_most(Condition::HasWeight, 1, weight as u64)?;
        let other = self.accounts.ledger(from as usize).weight();
        at_most(Condition::HasWeight, 1, other as u64)?;
        holds(Condition::Apart, from != hand)
    }

    // A join whose conditions hold.
    fn perform_join(&mut self, hand: u32, from: u32)
        requires hand { hand < length self.old.state.accounts }
        requires from { from < length self.old.state.accounts }
        requires apart { from ≢ hand }
        requires weight { 1 ≤ (account_of self.old.state hand).weight }
        ensures balance { Balance self.new.shape self.new.state }
        ensures state { self.new ≡ record self.old { state = moved self.old.shape self.old.state (joins hand from) } }
    {
        self.accounts.join(hand, from);
    }

    // A join, where its conditions hold.
    fn join(&mut self, hand: u32, from: u32) -> Result<u64, Refused>
        ensures answer { result ≡ answered (verdict (conditions self.old.shape self.old.state (joins hand from))) 0 }
        ensures state { self.new ≡ stepped self.old (joins hand from) }
        ensures balance { Balance self.new.shape self.new.state }
    {
        self.check_join(hand, from)?;
        self.perform_join(hand, from);
        Ok(0)
    }

    // Whether a hand may be split.
    fn check_split(&self, hand: u32, new: u32) -> Result<(), Refused>
        ensures verdict { result ≡ verdict (conditions self.now.shape self.now.state (splits hand new)) }
        ensures balance { Balance self.now.shape self.now.state }
    {
        let hands = self.accounts.hands();
        holds(
            Condition::InRange,
            (hand as usize) < hands && (new as usize) < hands,
        )?;
        let weight = self.accounts.ledger(hand as usize).weight();
        at_most(Condition::HasWeight, 1, weight as u64)?;
        holds(Condition::Apart, new != hand)?;
        at_most(Condition::TwoWeights, 2, weight as u64)?;
        let other = self.accounts.ledger(new as usize).weight();
        holds(Condition::Weightless, other == 0)
    }

    // A split whose conditions hold.
    fn perform_split(&mut self, hand: u32, new: u32)
        requires hand { hand < length self.old.state.accounts }
        requires new { new < length self.old.state.accounts }
        requires apart { new ≢ hand }
        requires weight { 2 ≤ (account_of self.old.state hand).weight }
        requires weightless { (account_of self.old.state new).weight ≡ 0 }
        ensures balance { Balance self.new.shape self.new.state }
        ensures state { self.new ≡ record self.old { state = moved self.old.shape self.old.state (splits hand new) } }
    {
        self.accounts.split(hand, new);
    }

    // A split, where its conditions hold.
    fn split(&mut self, hand: u32, new: u32) -> Result<u64, Refused>
        ensures answer { result ≡ answered (verdict (conditions self.old.shape self.old.state (splits hand new))) 0 }
        ensures state { self.new ≡ stepped self.old (splits hand new) }
        ensures balance { Balance self.new.shape self.new.state }
    {
        self.check_split(hand, new)?;
        self.perform_split(hand, new);
        Ok(0)
    }

    /// Applies an event. Ok has the number that was found at the event's word, and 0 for a join and
    /// a split; it comes exactly where all conditions of the event hold, and the state is then the
    /// event's. Err names the first condition that fails; nothing changes then. It takes no memory.
    pub fn apply(&mut self, event: CoreEvent) -> Result<u64, Refused>
        ensures answer { result ≡ answer self.old event }
        ensures state { self.new ≡ after_event self.old event }
        ensures balance { Balance self.new.shape self.new.state }
    {
        match event {
            CoreEvent::Claim { hand, m } => self.act(hand, Deed::Claim { m }),
            CoreEvent::Raise { hand, m, i, n } => self.act(hand, Deed::Raise { m, i, n }),
            CoreEvent::Post { hand, m, i, to, n } => self.act(hand, Deed::Post { m, i, to, n }),
            CoreEvent::Done { hand, m, i } => self.act(hand, Deed::Done { m, i }),
            CoreEvent::Collect { hand, to } => self.act(hand, Deed::Collect { to }),
            CoreEvent::Look { hand, m, to } => self.act(hand, Deed::Look { m, to }),
            CoreEvent::Ack { hand, m, to, n } => self.act(hand, Deed::Ack { m, to, n }),
            CoreEvent::Climb { hand, node } => self.act(hand, Deed::Climb { node }),
            CoreEvent::Join { hand, from } => self.join(hand, from),
            CoreEvent::Split { hand, new } => self.split(hand, new),
        }
    }

    /// How many hands the round has: 1 to 64. Hands are numbered from 0.
    pub fn hands(&self) -> u32
        ensures hands { result ≡ self.now.shape.hands }
        ensures balance { Balance self.now.shape self.now.state }
    {
        self.frame.hands()
    }

    /// Whether the hand holds Root. Where it does the round is quiet: every scheduled actor is
    /// reported once, and every letter that was posted is acknowledged.
    pub fn holds_root(&self, hand: u32) -> bool
        requires { hand < self.now.shape.hands }
        ensures root { result ≡ (account_of self.now.state hand).at_root }
        ensures quiet { result ≡ true → Quiet self.now.shape.sched self.now.state.accounts }
    {
        self.accounts.ledger(hand as usize).at_root()
    }
}
