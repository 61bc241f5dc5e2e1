ghost use Rattle.std.specs.Prelude.{◌≡◌, ◌≤◌};

use crate::Items;
use std::marker::Model;

/// The calls of a source or a sink in memory: how many were made, and which of them fail.
#[derive(Drop)]
pub(crate) struct Calls {
    made: u64,
    failing: Items<u32>,
    failed: u64,
}

impl Model for Calls {
    ghost use Rattle.sim_base.specs.Ends.{Calls as Made};

    ghost Value = { Made };

    ghost view = { λ c. record { made = c.made; failing = c.failing; failed = c.failed } };
}

impl Calls {
    ghost use Rattle.sim_base.specs.Ends.{after_call, after_failure, fails_next};

    pub(crate) fn new(failing: Items<u32>) -> Calls
        ensures { result ≡ record { made = 0; failing = failing; failed = 0 } }
    {
        Calls {
            made: 0,
            failing,
            failed: 0,
        }
    }

    /// Makes a call, and tells whether its number stands among those that fail.
    pub(crate) fn next_fails(&mut self) -> bool
        ensures fails { result ≡ fails_next self.old }
        ensures made { self.new ≡ after_call self.old }
    {
        self.made = self.made.saturating_add(1);
        let number = self.made;
        self.failing
            .as_slice()
            .iter()
            .any(|call| u64::from(*call) == number)
    }

    /// One failure more.
    pub(crate) fn count_failure(&mut self)
        ensures counts { self.new ≡ after_failure self.old }
        ensures later { self.old.failed ≤ self.new.failed }
    {
        self.failed = self.failed.saturating_add(1);
    }
}
