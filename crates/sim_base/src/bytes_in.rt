ghost use Rattle.std.specs.Prelude.{◌≡◌, ◌<◌, Some, length};
ghost use Rattle.sim_base.specs.Outside.{TakeCause, TakesAtMost, TakesFrom};

use crate::calls::Calls;
use crate::{Items, Source, Taken};
use std::marker::Model;

/// A source in memory that never fails. It gives as many bytes a call as the least of `cut`, what
/// is left and the room.
#[derive(Drop)]
pub struct SteadyIn {
    bytes: Items<u8>,
    at: usize,
    cut: u32,
}

impl Model for SteadyIn {
    ghost use Rattle.std.specs.Prelude.{◌<◌, ◌≤◌, drop, length};
    ghost use Rattle.sim_base.specs.Ends.{Feed};

    ghost Value = { Feed };

    ghost view = { λ s. record { left = drop s.at s.bytes; cut = s.cut } };

    ghost invariant = { λ s. (s.at ≤ length s.bytes) × (0 < s.cut) };
}

impl SteadyIn {
    /// A source that has all these bytes left. It takes no memory.
    pub fn new(bytes: Items<u8>, cut: u32) -> SteadyIn
        requires { 0 < cut }
        ensures { result ≡ record { left = bytes; cut = cut } }
    {
        SteadyIn { bytes, at: 0, cut }
    }
}

impl Source for SteadyIn {
    ghost use Rattle.sim_base.specs.Ends.{given};

    ghost left = { λ s. Some s.left };

    ghost faults = { λ _. 0 };

    fn take(&mut self, into: &mut [u8]) -> Taken
        requires { 0 < length into.old }
        ensures count { TakesAtMost result into.new }
        ensures bytes { TakesFrom (Some self.old.left) (Some self.new.left) result into.new }
        ensures cause { TakeCause 0 0 result }
        ensures exact { result ≡ Taken.Bytes (given self.old (length into.old)) }
        ensures cut { self.new.cut ≡ self.old.cut }
    {
        let rest = self.bytes.len() - self.at;
        let count = rest.min(self.cut as usize).min(into.len());
        let at = self.at;
        into[..count].copy_from_slice(&self.bytes.as_slice()[at..at + count]);
        self.at = at + count;
        Taken::Bytes(count)
    }
}

/// A source in memory that fails at some calls, and else gives what a `SteadyIn` gives.
#[derive(Drop)]
pub struct BytesIn {
    feed: SteadyIn,
    calls: Calls,
}

impl Model for BytesIn {
    ghost use Rattle.sim_base.specs.Ends.{FailingFeed};

    ghost Value = { FailingFeed };

    ghost view = { λ b. record { feed = b.feed; calls = b.calls } };
}

impl BytesIn {
    /// A source that has all these bytes left and fails at the calls with these numbers, counted
    /// from 1. It takes no memory.
    pub fn new(bytes: Items<u8>, cut: u32, fails: Items<u32>) -> BytesIn
        requires { 0 < cut }
        ensures { result ≡ record { feed = record { left = bytes; cut = cut }; calls = record { made = 0; failing = fails; failed = 0 } } }
    {
        BytesIn {
            feed: SteadyIn::new(bytes, cut),
            calls: Calls::new(fails),
        }
    }
}

impl Source for BytesIn {
    ghost use Rattle.sim_base.specs.Ends.{next_call, taken_of};

    ghost left = { λ b. Some b.feed.left };

    ghost faults = { λ b. b.calls.failed };

    fn take(&mut self, into: &mut [u8]) -> Taken
        requires { 0 < length into.old }
        ensures count { TakesAtMost result into.new }
        ensures bytes { TakesFrom (Some self.old.feed.left) (Some self.new.feed.left) result into.new }
        ensures cause { TakeCause self.old.calls.failed self.new.calls.failed result }
        ensures exact { result ≡ taken_of self.old (length into.old) }
        ensures cut { self.new.feed.cut ≡ self.old.feed.cut }
        ensures called { self.new.calls.made ≡ next_call self.old.calls }
        ensures failing { self.new.calls.failing ≡ self.old.calls.failing }
    {
        if self.calls.next_fails() {
            self.calls.count_failure();
            return Taken::Failed;
        }
        self.feed.take(into)
    }
}
