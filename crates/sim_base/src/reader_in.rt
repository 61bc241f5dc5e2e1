ghost use Rattle.std.specs.Prelude.{◌≡◌, ◌<◌, length};
ghost use Rattle.sim_base.specs.Outside.{TakesAtMost, TakesFrom};

use crate::{Source, Taken};
use std::io::{ErrorKind, Read, Stdin};
use std::marker::Model;

/// The bytes of a reader, as a source. A reading that a signal interrupted is made again; any other
/// error is a failure.
#[derive(Drop)]
pub struct ReaderIn<R: Read> {
    reader: R,
    faults: u64,
}

/// Standard input. It tells nothing of its bytes.
pub type StdIn = ReaderIn<Stdin>;

impl<R: Read> Model for ReaderIn<R> {
    ghost use Rattle.sim_base.specs.Ends.{Inflow};

    ghost Value = { Inflow };

    ghost view = { λ s. record { left = R.remaining s.reader; faults = s.faults } };
}

impl<R: Read> ReaderIn<R> {
    /// A source of what this reader has left, with no failure yet.
    pub fn new(reader: R) -> ReaderIn<R>
        ensures { result ≡ record { left = R.remaining reader; faults = 0 } }
    {
        ReaderIn { reader, faults: 0 }
    }
}

impl<R: Read> Source for ReaderIn<R> {
    ghost left = { λ s. s.left };

    ghost faults = { λ s. s.faults };

    fn take(&mut self, into: &mut [u8]) -> Taken {
        let taken = take_from(&mut self.reader, into);
        if taken == Taken::Failed {
            self.faults = self.faults.saturating_add(1);
        }
        taken
    }
}

/// Reads once, and again where a signal interrupted it.
fn take_from<R: Read>(reader: &mut R, into: &mut [u8]) -> Taken
    requires { 0 < length into.old }
    ensures count { TakesAtMost result into.new }
    ensures bytes { TakesFrom (R.remaining reader.old) (R.remaining reader.new) result into.new }
{
    for _ in 0..u64::MAX {
        match reader.read(into) {
            Ok(count) => return Taken::Bytes(count),
            Err(e) if e.kind() == ErrorKind::Interrupted => {}
            Err(_) => return Taken::Failed,
        }
    }
    Taken::Failed
}
