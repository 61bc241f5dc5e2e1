ghost use Rattle.std.specs.Prelude.{◌≡◌, ◌<◌, ◌≤◌, ◌+◌, ◌^◌, true, false, cond, eqb, ltb};
ghost use Rattle.quiet_core.specs.Account.{blank, no_actors, has_met, posts, knows, acks, collects, has_duty, managers, scheduled};
ghost use Rattle.quiet_core.specs.Rows.{put, put_pair};
ghost use Rattle.quiet_core.specs.Step.{reached, united, kept_part, new_part};
ghost use Rattle.quiet_core.specs.Balance.{Sized};
ghost use Rattle.quiet_core.specs.Noted.{noted, Within, Roomy, RoomyBoth};

use crate::deed::Deed;
use crate::frame::Frame;
use crate::pairs::{MANAGERS, Pairs};
use crate::rows::{add_row, join_row};
use std::marker::Model;

/// The most nodes of a round.
pub(crate) const NODES: usize = 31;

/// What a hand has done, but for the actors that it claimed and reported.
#[derive(Drop)]
pub(crate) struct Ledger {
    weight: u32,
    collecting: bool,
    exhausted: [bool; MANAGERS],
    posted: Pairs,
    known: Pairs,
    acked: Pairs,
    collected: [u64; MANAGERS],
    duties: [bool; NODES],
    at_root: bool,
}

impl Model for Ledger {
    ghost use Rattle.std.specs.Prelude.{[]};
    ghost use Rattle.quiet_core.specs.Account.{Account};

    ghost Value = { Account };

    ghost view = { λ l. record {
      weight = l.weight;
      collecting = l.collecting;
      exhausted = l.exhausted;
      marks = [];
      posted = l.posted;
      known = l.known;
      acked = l.acked;
      collected = l.collected;
      duties = l.duties;
      at_root = l.at_root;
    } };
}

impl Ledger {
    /// A ledger in which nothing is written yet.
    pub(crate) fn new(weight: u32) -> Ledger
        ensures { result ≡ record (blank no_actors) { weight = weight } }
    {
        Ledger {
            weight,
            collecting: false,
            exhausted: [false; MANAGERS],
            posted: Pairs::new(),
            known: Pairs::new(),
            acked: Pairs::new(),
            collected: [0; MANAGERS],
            duties: [false; NODES],
            at_root: false,
        }
    }

    pub(crate) fn weight(&self) -> u32
        ensures { result ≡ self.now.weight }
    {
        self.weight
    }

    pub(crate) fn collecting(&self) -> bool
        ensures { result ≡ self.now.collecting }
    {
        self.collecting
    }

    pub(crate) fn at_root(&self) -> bool
        ensures { result ≡ self.now.at_root }
    {
        self.at_root
    }

    pub(crate) fn has_met(&self, m: usize) -> bool
        requires { m < 16 }
        ensures { result ≡ has_met self.now m }
    {
        self.exhausted[m]
    }

    /// How many letters from m to n the hand has posted.
    pub(crate) fn posts(&self, m: usize, n: usize) -> u64
        requires row { m < 16 }
        requires place { n < 16 }
        ensures { result ≡ posts self.now m n }
    {
        self.posted.at(m, n)
    }

    pub(crate) fn knows(&self, m: usize, n: usize) -> u64
        requires row { m < 16 }
        requires place { n < 16 }
        ensures { result ≡ knows self.now m n }
    {
        self.known.at(m, n)
    }

    pub(crate) fn acks(&self, m: usize, n: usize) -> u64
        requires row { m < 16 }
        requires place { n < 16 }
        ensures { result ≡ acks self.now m n }
    {
        self.acked.at(m, n)
    }

    pub(crate) fn collects(&self, n: usize) -> u64
        requires { n < 16 }
        ensures { result ≡ collects self.now n }
    {
        self.collected[n]
    }

    pub(crate) fn has_duty(&self, node: usize) -> bool
        requires { node < 31 }
        ensures { result ≡ has_duty self.now node }
    {
        self.duties[node]
    }

    // A manager was found exhausted, where the number that was found is past its last.
    fn note_claim(&mut self, frame: &Frame, m: u32, found: u64)
        requires sized { Sized frame.now }
        requires manager { m < managers frame.now }
        ensures { self.new ≡ cond (ltb found (scheduled frame.now m)) self.old (record self.old { exhausted = put false self.old.exhausted m true }) }
    {
        if found >= frame.scheduled(m) as u64 {
            self.exhausted[m as usize] = true;
        }
    }

    // The letters to a manager are collected, where nobody did before.
    fn note_collect(&mut self, n: usize, found: u64)
        requires { n < 16 }
        ensures { self.new ≡ cond (eqb found 0) (record self.old { collected = put 0 self.old.collected n 1 }) self.old }
    {
        if found == 0 {
            self.collected[n] = 1;
        }
    }

    // A duty is given away.
    fn relieve(&mut self, node: usize)
        requires { node < 31 }
        ensures { self.new ≡ record self.old { duties = put false self.old.duties node false } }
    {
        self.duties[node] = false;
    }

    // The word of a node has become `left`: where that is 0, a duty is held there, or Root.
    fn reach(&mut self, frame: &Frame, node: usize, left: u64)
        requires { node < 31 }
        ensures { self.new ≡ reached frame.now node left self.old }
    {
        if left == 0 {
            if node == frame.root() {
                self.at_root = true;
            } else {
                self.duties[node] = true;
            }
        }
    }

    fn note_post(&mut self, m: usize, n: usize, letters: u64, issued: u64)
        requires row { m < 16 }
        requires place { n < 16 }
        requires fits { posts self.old m n + letters < 2 ^ 64 }
        ensures { self.new ≡ record self.old { posted = put_pair self.old.posted m n (posts self.old m n + letters); known = put_pair self.old.known m n issued } }
    {
        let posted = self.posted.at(m, n) + letters;
        self.posted.put(m, n, posted);
        self.known.put(m, n, issued);
    }

    fn note_ack(&mut self, m: usize, n: usize, letters: u64)
        requires row { m < 16 }
        requires place { n < 16 }
        requires fits { acks self.old m n + letters < 2 ^ 64 }
        ensures { self.new ≡ record self.old { acked = put_pair self.old.acked m n (acks self.old m n + letters) } }
    {
        let acked = self.acked.at(m, n) + letters;
        self.acked.put(m, n, acked);
    }

    fn note_look(&mut self, m: usize, n: usize, issued: u64)
        requires row { m < 16 }
        requires place { n < 16 }
        ensures { self.new ≡ record self.old { known = put_pair self.old.known m n issued } }
    {
        self.known.put(m, n, issued);
    }

    /// Writes down what a deed, which found this number at its word, changes beside the actors.
    pub(crate) fn note(&mut self, frame: &Frame, deed: Deed, found: u64)
        requires sized { Sized frame.now }
        requires within { Within frame.now deed }
        requires roomy { Roomy deed found self.old }
        ensures { self.new ≡ noted frame.now deed found self.old }
    {
        match deed {
            Deed::Claim { m } => self.note_claim(frame, m, found),
            Deed::Raise { .. } => {}
            Deed::Post { m, to, n, .. } => {
                self.note_post(m as usize, to as usize, n as u64, found + n as u64)
            }
            Deed::Done { m, .. } => self.reach(frame, m as usize, found - 1),
            Deed::Collect { to } => self.note_collect(to as usize, found),
            Deed::Look { m, to } => self.note_look(m as usize, to as usize, found),
            Deed::Ack { m, to, n } => {
                self.note_ack(m as usize, to as usize, n);
                self.reach(frame, m as usize, found - n)
            }
            Deed::Climb { node } => {
                self.relieve(node as usize);
                self.reach(frame, frame.parent(node) as usize, found - 1)
            }
        }
    }

    /// Takes in what is written in another ledger.
    pub(crate) fn unite(&mut self, other: &Ledger)
        requires { RoomyBoth self.old other.now }
        ensures { self.new ≡ united self.old other.now }
    {
        self.weight += other.weight;
        self.collecting |= other.collecting;
        join_row(&mut self.exhausted, &other.exhausted);
        self.posted.add(&other.posted);
        self.known.rise(&other.known);
        self.acked.add(&other.acked);
        add_row(&mut self.collected, &other.collected);
        join_row(&mut self.duties, &other.duties);
        self.at_root |= other.at_root;
    }

    /// Gives one unit of weight away, and collects from then on.
    pub(crate) fn give(&mut self)
        requires { 1 ≤ self.old.weight }
        ensures { self.new ≡ kept_part self.old }
    {
        self.weight -= 1;
        self.collecting = true;
    }

    /// The ledger of a new hand, which has one unit of weight, knows what another one knows, and
    /// collects.
    pub(crate) fn part(of: &Ledger) -> Ledger
        ensures { result ≡ new_part no_actors of.now }
    {
        let mut part = Ledger::new(1);
        part.collecting = true;
        part.known = of.known.copied();
        part
    }
}
