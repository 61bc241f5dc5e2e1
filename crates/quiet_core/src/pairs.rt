ghost use Rattle.std.specs.Prelude.{◌≡◌, ◌<◌, ◌+◌, ◌^◌, ℕ, max};
ghost use Rattle.quiet_core.specs.Account.{no_pairs};
ghost use Rattle.quiet_core.specs.Rows.{at_pair, put_pair, blend};

use crate::rows::{add_row, rise_row};
use std::marker::Model;

/// The most managers of a round.
pub(crate) const MANAGERS: usize = 16;

/// A number for each pair of managers.
#[derive(Drop)]
pub(crate) struct Pairs {
    rows: [[u64; MANAGERS]; MANAGERS],
}

impl Model for Pairs {
    ghost use Rattle.std.specs.Prelude.{List, ℕ};
    ghost use Rattle.quiet_core.specs.Wide.{WidePairs};

    ghost Value = { List (List ℕ) };

    ghost view = { λ p. p.rows };

    ghost invariant = { λ p. WidePairs p.rows };
}

impl Pairs {
    pub(crate) fn new() -> Pairs
        ensures { result ≡ no_pairs }
    {
        Pairs {
            rows: [[0; MANAGERS]; MANAGERS],
        }
    }

    pub(crate) fn copied(&self) -> Pairs
        ensures { result ≡ self.now }
    {
        Pairs { rows: self.rows }
    }

    pub(crate) fn at(&self, m: usize, n: usize) -> u64
        requires row { m < 16 }
        requires place { n < 16 }
        ensures { result ≡ at_pair self.now m n }
    {
        self.rows[m][n]
    }

    pub(crate) fn put(&mut self, m: usize, n: usize, number: u64)
        requires row { m < 16 }
        requires place { n < 16 }
        ensures { self.new ≡ put_pair self.old m n number }
    {
        self.rows[m][n] = number;
    }
}

impl Pairs {
    /// Adds the numbers of another table, pair by pair.
    pub(crate) fn add(&mut self, other: &Pairs)
        requires { (m n : ℕ) → m < 16 → n < 16 → at_pair self.old m n + at_pair other.now m n < 2 ^ 64 }
        ensures { self.new ≡ blend (blend ◌+◌) self.old other.now }
    {
        for m in 0..MANAGERS {
            add_row(&mut self.rows[m], &other.rows[m]);
        }
    }

    /// Raises each number to that of another table, where that is greater.
    pub(crate) fn rise(&mut self, other: &Pairs)
        ensures { self.new ≡ blend (blend max) self.old other.now }
    {
        for m in 0..MANAGERS {
            rise_row(&mut self.rows[m], &other.rows[m]);
        }
    }
}
