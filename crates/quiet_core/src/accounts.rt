ghost use Rattle.std.specs.Prelude.{◌≡◌, ◌≢◌, ◌<◌, ◌≤◌, ℕ, [], length, map, replicate, set, slice_index, IfOk};
ghost use Rattle.quiet_core.specs.Account.{account, blank, no_actors, mark, opened, plain, owing, free, managers};
ghost use Rattle.quiet_core.specs.Step.{after, put_mark, united, kept_part, new_part};
ghost use Rattle.quiet_core.specs.Balance.{Sized};
ghost use Rattle.quiet_core.specs.Noted.{noted, Within, Roomy, RoomyBoth};
ghost use Rattle.quiet_core.specs.Entries.{Enters, free_table, mark_of, marked, passed};

use crate::deed::Deed;
use crate::entry::Entry;
use crate::frame::Frame;
use crate::ledger::Ledger;
use sim_base::Memory;
use std::alloc::Global;
use std::marker::Model;
use std::mem;

/// The accounts of all hands: a ledger for each, and one table of the scheduled actors, which says
/// at which hand each of them is.
#[derive(Drop)]
pub(crate) struct Accounts {
    ledgers: Vec<Ledger>,
    numbers: Vec<Vec<Entry>>,
}

impl Model for Accounts {
    ghost use Rattle.std.specs.Prelude.{length, map};
    ghost use Rattle.quiet_core.specs.Entries.{Book, all_from};

    ghost Value = { Book };

    ghost view = { λ a. record {
      sched = map (λ row. length row.items) a.numbers.items;
      accounts = all_from 0 a.ledgers.items (map (λ row. row.items) a.numbers.items);
    } };
}

// The table of all scheduled actors, of which nobody has claimed one.
fn free_numbers(alloc: Global, frame: &Frame) -> Result<Vec<Vec<Entry>>, Memory>
    requires { Sized frame.now }
    ensures { IfOk result (λ numbers. map (λ row. row.items) numbers.items ≡ free_table frame.now.sched) }
{
    let mut numbers = Vec::with_capacity(alloc, frame.managers())?;
    for m in 0..frame.managers() {
        let count = frame.scheduled(m as u32) as usize;
        numbers.push(vec![in alloc; Entry::Free; count]?)?;
    }
    Ok(numbers)
}

// A ledger of weight 1 for each hand.
fn new_ledgers(alloc: Global, hands: u32) -> Result<Vec<Ledger>, Memory>
    ensures { IfOk result (λ ledgers. ledgers.items ≡ replicate hands (record (blank no_actors) { weight = 1 })) }
{
    let mut ledgers = Vec::with_capacity(alloc, hands as usize)?;
    for _hand in 0..hands {
        ledgers.push(Ledger::new(1))?;
    }
    Ok(ledgers)
}

impl Accounts {
    /// The accounts of a round in which nobody has done anything. Err is want of memory.
    pub(crate) fn of(alloc: Global, frame: &Frame) -> Result<Accounts, Memory>
        requires { Sized frame.now }
        ensures sched { IfOk result (λ accounts. accounts.sched ≡ frame.now.sched) }
        ensures accounts { IfOk result (λ accounts. accounts.accounts ≡ replicate frame.now.hands (record (blank frame.now) { weight = 1 })) }
    {
        let numbers = free_numbers(alloc, frame)?;
        let ledgers = new_ledgers(alloc, frame.hands())?;
        Ok(Accounts { ledgers, numbers })
    }

    /// How many hands.
    pub(crate) fn hands(&self) -> usize
        ensures { result ≡ length self.now.accounts }
    {
        self.ledgers.len()
    }

    /// The ledger of a hand: its account, but for its marks.
    pub(crate) fn ledger(&self, hand: usize) -> &Ledger
        requires { hand < length self.now.accounts }
        ensures { result.now ≡ record (account self.now.accounts hand) { marks = result.now.marks } }
    {
        &self.ledgers[hand]
    }

    // Writes down what becomes of a scheduled actor at a hand.
    fn enter(&mut self, hand: u32, m: usize, i: usize, entry: Entry)
        requires hand { hand < length self.old.accounts }
        requires manager { m < length self.old.sched }
        requires number { i < slice_index self.old.sched m }
        requires own { (g : ℕ) → g ≢ hand → mark_of g entry ≡ free }
        requires alone { (g : ℕ) → g < length self.old.accounts → g ≢ hand → mark (account self.old.accounts g) m i ≡ free }
        ensures sched { self.new.sched ≡ self.old.sched }
        ensures accounts { self.new.accounts ≡ set self.old.accounts hand (put_mark (account self.old.accounts hand) m i (mark_of hand entry)) }
    {
        let _ = hand;
        let row = &mut self.numbers[m];
        row[i] = entry;
    }

    /// What became of an actor; nothing, where its manager has no such actor.
    pub(crate) fn entry(&self, m: usize, i: usize) -> Entry
        requires { m < length self.now.sched }
        ensures { (h : ℕ) → h < length self.now.accounts → mark (account self.now.accounts h) m i ≡ mark_of h result }
    {
        let row = &self.numbers[m];
        if i < row.len() { row[i] } else { Entry::Free }
    }

    // Writes down what a deed changes beside the actors.
    fn note(&mut self, frame: &Frame, hand: u32, deed: Deed, found: u64)
        requires sized { Sized frame.now }
        requires within { Within frame.now deed }
        requires hand { hand < length self.old.accounts }
        requires roomy { Roomy deed found (account self.old.accounts hand) }
        ensures sched { self.new.sched ≡ self.old.sched }
        ensures accounts { self.new.accounts ≡ set self.old.accounts hand (noted frame.now deed found (account self.old.accounts hand)) }
    {
        let ledger = &mut self.ledgers[hand as usize];
        ledger.note(frame, deed, found);
    }

    // Writes down what a deed changes of an actor.
    fn mark(&mut self, frame: &Frame, hand: u32, deed: Deed, found: u64)
        requires sized { Sized frame.now }
        requires sched { self.old.sched ≡ frame.now.sched }
        requires hand { hand < length self.old.accounts }
        requires enters { Enters frame.now deed found self.old.accounts hand }
        ensures sched { self.new.sched ≡ self.old.sched }
        ensures accounts { self.new.accounts ≡ set self.old.accounts hand (marked frame.now deed found (account self.old.accounts hand)) }
    {
        match deed {
            Deed::Claim { m } => {
                if found < frame.scheduled(m) as u64 {
                    self.enter(hand, m as usize, found as usize, Entry::Fresh { hand });
                }
            }
            Deed::Raise { m, i, n } => {
                self.enter(hand, m as usize, i as usize, Entry::Told { hand, left: n });
            }
            Deed::Post { m, i, n, .. } => {
                let left = self.entry(m as usize, i as usize).owing(hand) - n;
                self.enter(hand, m as usize, i as usize, Entry::Told { hand, left });
            }
            Deed::Done { m, i } => {
                self.enter(hand, m as usize, i as usize, Entry::Reported { hand });
            }
            Deed::Collect { .. } | Deed::Look { .. } | Deed::Ack { .. } | Deed::Climb { .. } => {}
        }
    }

    /// Writes down a deed, which found this number at its word.
    pub(crate) fn act(&mut self, frame: &Frame, hand: u32, deed: Deed, found: u64)
        requires sized { Sized frame.now }
        requires within { Within frame.now deed }
        requires sched { self.old.sched ≡ frame.now.sched }
        requires hand { hand < length self.old.accounts }
        requires roomy { Roomy deed found (account self.old.accounts hand) }
        requires enters { Enters frame.now deed found self.old.accounts hand }
        ensures sched { self.new.sched ≡ self.old.sched }
        ensures accounts { self.new.accounts ≡ set self.old.accounts hand (after frame.now deed found (account self.old.accounts hand)) }
    {
        self.note(frame, hand, deed, found);
        self.mark(frame, hand, deed, found);
    }

    /// A hand takes in the account of another, which is left empty and without weight.
    pub(crate) fn join(&mut self, hand: u32, from: u32)
        requires hand { hand < length self.old.accounts }
        requires from { from < length self.old.accounts }
        requires apart { from ≢ hand }
        requires roomy { RoomyBoth (account self.old.accounts hand) (account self.old.accounts from) }
        ensures sched { self.new.sched ≡ self.old.sched }
        ensures accounts { self.new.accounts ≡ set (set self.old.accounts hand (united (account self.old.accounts hand) (account self.old.accounts from))) from (blank record { sched = self.old.sched; parents = []; hands = 0 }) }
    {
        let gone = mem::replace(&mut self.ledgers[from as usize], Ledger::new(0));
        let ledger = &mut self.ledgers[hand as usize];
        ledger.unite(&gone);
        pass_all(&mut self.numbers, from, hand);
    }

    /// A hand gives one unit of weight to a hand that has none and has done nothing, and both
    /// collect.
    pub(crate) fn split(&mut self, hand: u32, new: u32)
        requires hand { hand < length self.old.accounts }
        requires new { new < length self.old.accounts }
        requires apart { new ≢ hand }
        requires weight { 1 ≤ (account self.old.accounts hand).weight }
        requires empty { account self.old.accounts new ≡ blank record { sched = self.old.sched; parents = []; hands = 0 } }
        ensures sched { self.new.sched ≡ self.old.sched }
        ensures accounts { self.new.accounts ≡ set (set self.old.accounts hand (kept_part (account self.old.accounts hand))) new (new_part record { sched = self.old.sched; parents = []; hands = 0 } (account self.old.accounts hand)) }
    {
        let ledger = &mut self.ledgers[hand as usize];
        ledger.give();
        let part = Ledger::part(&self.ledgers[hand as usize]);
        self.ledgers[new as usize] = part;
    }
}

// The entries of one hand are another's.
fn pass_row(row: &mut Vec<Entry>, from: u32, to: u32)
    ensures { row.new.items ≡ map (passed from to) row.old.items }
{
    for n in 0..row.len() {
        let entry = row[n];
        row[n] = entry.passed(from, to);
    }
}

// In all rows the entries of one hand are another's.
fn pass_all(rows: &mut Vec<Vec<Entry>>, from: u32, to: u32)
    ensures { map (λ row. row.items) rows.new.items ≡ map (λ row. map (passed from to) row) (map (λ row. row.items) rows.old.items) }
{
    for m in 0..rows.len() {
        let row = &mut rows[m];
        pass_row(row, from, to);
    }
}
